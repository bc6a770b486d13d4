//! Laws of rows, each the contract of a function that does nothing.
ghost use Rattle.std.specs.Prelude.{◌≡◌, ◌≤◌, ◌+◌, ◌*◌, [], ◌∷◌, ℕ, List, Some, Contains, length};
ghost use Rattle.gb_text.specs.declared.id.Name.{Name};
ghost use Rattle.commit_walk.specs.Below.{IsBelow};
ghost use Rattle.commit_walk.specs.Distinct.{AreDistinct};
ghost use Rattle.dag_entity.specs.Since.{IsChainTo};
ghost use Rattle.dag_entity.specs.declared.entity.Placed.{Placed as PlacedValue};
ghost use Rattle.repo_rows.specs.Reading.{IsHead};
ghost use Rattle.repo_rows.specs.Reads.{ReadsBug, ReadsRows};
ghost use Rattle.repo_state.specs.Rows.{stored_row};
ghost use Rattle.row_text.specs.declared.row.HeadRow.{HeadRow as HeadRowValue};
ghost use Rattle.bug_ops.specs.Kind.{bug_kind};
ghost use Rattle.bug_ops.specs.declared.op.BugOp.{BugOp as OpValue};
ghost use Rattle.bug_ops.specs.declared.snapshot.Excerpt.{Excerpt as RowValue};
ghost use Rattle.dag_entity.specs.Entities.{IsOperationList};
ghost use Rattle.gb_store.specs.Files.{Files};
ghost use Rattle.object_store.specs.Held.{objects_in};
ghost use Rattle.snapshot.specs.LastMention.{snapshot_of};
ghost use Rattle.repo_rows.specs.Rows.{HasBadBug, IsRow};
ghost use Rattle.repo_state.specs.Sound.{IsSound};
ghost use Rattle.repo_state.specs.declared.side.HeadEntry.{HeadEntry as HeadEntryValue};

/// A row is what any list of the bug's operations in order says.
pub fn rows_say_what_operations_say()
    ensures { (files : Files) (folder : List ℕ) (bug : HeadEntryValue) (row : RowValue)
        (ops : List OpValue) → IsRow files folder bug row
        → IsOperationList bug_kind (objects_in files folder) (bug.name ∷ []) ops
        → row ≡ (snapshot_of ops).row }
{}

/// In a sound folder no bug is damaged.
pub fn sound_folders_have_rows()
    ensures { (files : Files) (folder path : List ℕ) → IsSound folder files
        → HasBadBug files folder path → ⊥ }
{}

/// If the stored row of each local bug is of its head, no object is read.
pub fn current_rows_read_nothing()
    ensures { (files : Files) (folder : List ℕ) (before after : ℕ)
        → ReadsRows files folder before after
        → ((bug : HeadEntryValue) → IsHead files folder bug → (row : HeadRowValue)
        × (stored_row files folder bug.id ≡ Some row) × (row.head ≡ bug.name))
        → after ≡ before }
{}

/// Where steps by the single parent lead from a bug's head to the commit of its stored row, at most
/// three objects are read for each commit above that, and never more than three for each of some
/// commits below the head.
pub fn chains_read_what_is_new()
    ensures above { (files : Files) (folder : List ℕ) (bug : HeadEntryValue) (row : HeadRowValue)
        (packs : List (PlacedValue OpValue)) (before after : ℕ)
        → ReadsBug files folder bug before after → stored_row files folder bug.id ≡ Some row
        → IsChainTo bug_kind (objects_in files folder) bug.name row.head packs
        → after ≤ before + 3 * length packs }
    ensures below { (files : Files) (folder : List ℕ) (bug : HeadEntryValue) (before after : ℕ)
        → ReadsBug files folder bug before after
        → (commits : List Name) × AreDistinct commits
        × ((name : Name) → Contains commits name
        → IsBelow (objects_in files folder) (bug.name ∷ []) name)
        × (after ≤ before + 3 * length commits) }
{}
