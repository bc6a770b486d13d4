//! What a commit's tree says of its pack.
ghost use Rattle.std.specs.Prelude.{◌≡◌, [], ◌∷◌, IfOk, IfErr, IfSome, IfNone, Some};
ghost use Rattle.std.specs.Option.{ForSome, option_copied};
ghost use Rattle.op_kind.specs.Members.{IsRepeated};
ghost use Rattle.git_object.specs.Grammar.{HasGoodNames};
ghost use Rattle.git_object.specs.Views.{entry_seen, tree_seen};
ghost use Rattle.op_pack.specs.Heads.{IsClock, IsHeadInRange, rest_after, rests_seen, clock_at, version_at, version_of, edit_clock_of, create_clock_of, is_ops, ops_of, head_of, HeadFault, IsTold, plain_entry, number_entry, tree_with};
ghost use Rattle.op_pack.specs.Answers.{Answers};
ghost use Rattle.op_pack.specs.declared.fault.PackFault.{PackFault as FaultValue};

use crate::PackFault;
use gb_text::{Bytes, List, Memory, Name, read_decimal};
use git_object::{Entry, EntryView, Kind, Mode, Tree, TreeView, name_of};
use lamport::Time;
use op_kind::VERSION;
use std::alloc::Global;

/// What a commit's tree says: the version of its pack's format, the edit clock, the create
/// clock of a pack that begins an entity, and the object that holds the pack's text.
#[derive(Clone, Copy, Debug, PartialEq, Eq)]
pub struct TreeHead {
    pub version: u64,
    pub edit: Time,
    pub create: Option<Time>,
    pub ops: Name,
}

// What follows a front in an entry's name, if the name begins so.
fn rest_after<'a>(front: &[u8], entry: &EntryView<'a>) -> Option<&'a [u8]>
    ensures { option_copied result ≡ rest_after front.now (entry_seen entry.now) }
{
    entry.name.strip_prefix(front)
}

// What follows a front in the name of the entry whose name begins so, if there is one. None where
// there are several.
#[tactic(auto, using(crate::proofs::RestLemmas::rests_drop))]
fn find_rest<'a>(front: &[u8], entries: &[EntryView<'a>]) -> Option<Option<&'a [u8]>>
    ensures repeated { IfNone result (IsRepeated (rests_seen front.now entries.now)) }
    ensures absent { IfSome result (λ o. IfNone o (rests_seen front.now entries.now ≡ [])) }
    ensures once { IfSome result (λ o. IfSome o
        (λ rest. rests_seen front.now entries.now ≡ rest.now ∷ [])) }
{
    let mut found = None;
    for entry in entries {
        let Some(rest) = rest_after(front, entry) else {
            continue;
        };
        if found.is_some() {
            return None;
        }
        found = Some(rest);
    }
    Some(found)
}

// The first number that follows a front as a plain decimal, or 0.
fn told_number(front: &[u8], entries: &[EntryView<'_>]) -> u64
    ensures { IsTold result (rests_seen front.now entries.now) }
{
    for entry in entries {
        let Some(rest) = rest_after(front, entry) else {
            continue;
        };
        if let Some(number) = read_decimal(rest) {
            return number;
        }
    }
    0
}

// The format's version, where a text is its decimal.
fn read_version(text: &[u8]) -> Option<u64>
    ensures { result ≡ version_at text.now }
{
    read_decimal(text).filter(|version| *version == VERSION)
}

fn version_in(tree: &TreeView<'_>) -> Result<u64, PackFault>
    ensures { Answers (version_of (tree_seen tree.now)) (HeadFault (tree_seen tree.now)) result }
{
    let entries = tree.entries.as_slice();
    let version = match find_rest(b"version-", entries) {
        Some(Some(rest)) => read_version(rest),
        _ => None,
    };
    match version {
        Some(version) => Ok(version),
        None => Err(PackFault::UnknownVersion(told_number(b"version-", entries))),
    }
}

// The clock of which a text is the decimal.
fn read_clock(text: &[u8]) -> Option<Time>
    ensures { result ≡ clock_at text.now }
{
    Time::read(read_decimal(text)?)
}

fn edit_clock_in(tree: &TreeView<'_>) -> Result<Time, PackFault>
    ensures { Answers (edit_clock_of (tree_seen tree.now)) (HeadFault (tree_seen tree.now)) result }
{
    match find_rest(b"edit-clock-", tree.entries.as_slice()) {
        None => Err(PackFault::BadClock),
        Some(None) => Err(PackFault::BadClock),
        Some(Some(rest)) => read_clock(rest).ok_or(PackFault::BadClock),
    }
}

fn create_clock_in(tree: &TreeView<'_>) -> Result<Option<Time>, PackFault>
    ensures { Answers (create_clock_of (tree_seen tree.now)) (HeadFault (tree_seen tree.now)) result }
{
    match find_rest(b"create-clock-", tree.entries.as_slice()) {
        None => Err(PackFault::BadClock),
        Some(None) => Ok(None),
        Some(Some(rest)) => match read_clock(rest) {
            Some(clock) => Ok(Some(clock)),
            None => Err(PackFault::BadClock),
        },
    }
}

fn is_ops(entry: &EntryView<'_>) -> bool
    ensures { result ≡ is_ops (entry_seen entry.now) }
{
    entry.name == b"ops".as_slice() && matches!(entry.mode, Mode::Plain | Mode::Exec)
}

fn ops_in(tree: &TreeView<'_>) -> Result<Name, PackFault>
    ensures { Answers (ops_of (tree_seen tree.now)) (HeadFault (tree_seen tree.now)) result }
{
    for entry in tree.entries.as_slice() {
        if is_ops(entry) {
            return Ok(entry.object);
        }
    }
    Err(PackFault::NoOps)
}

/// What a commit's tree says of its pack (git-bug's data model, format 4). Ok exactly where the tree
/// has exactly one entry that begins with `version-`, and `4` follows; exactly one that begins
/// with `edit-clock-`, at most one that begins with `create-clock-`, and in each of these a plain
/// decimal of 1 to 2^63 - 1 follows; and an entry `ops` of mode 100644 or 100755. Other entries are
/// ignored, and so are the modes and the objects of versions and clocks. Takes no memory.
pub fn read_head(tree: &TreeView<'_>) -> Result<TreeHead, PackFault>
    ensures answer { Answers (head_of (tree_seen tree.now)) (HeadFault (tree_seen tree.now)) result }
    ensures sound { IfOk result (λ _. (fault : FaultValue) → HeadFault (tree_seen tree.now) fault → ⊥) }
    ensures in_range { IfOk result IsHeadInRange }
{
    let version = version_in(tree)?;
    let edit = edit_clock_in(tree)?;
    let create = create_clock_in(tree)?;
    let ops = ops_in(tree)?;
    Ok(TreeHead {
        version,
        edit,
        create,
        ops,
    })
}

fn plain_entry(alloc: Global, name: &str, object: Name) -> Result<Entry, Memory>
    ensures { IfOk result (λ e. e ≡ plain_entry name.now object) }
{
    let name = Bytes::from_slice(alloc, name.as_bytes())?;
    Ok(Entry {
        mode: Mode::Plain,
        name,
        object,
    })
}

fn number_entry(alloc: Global, front: &str, number: u64) -> Result<Entry, Memory>
    ensures { IfOk result (λ e. e ≡ number_entry front.now number) }
{
    let name = format!(in alloc; "{front}{number}")?;
    plain_entry(alloc, name.as_str(), name_of(Kind::Blob, b""))
}

// The number of a create clock, where there is one.
pub(crate) fn create_number(create: Option<Time>) -> Option<u64>
    ensures same { result ≡ create }
    ensures clock { ForSome create (λ clock. IsClock clock) }
{
    match create {
        Some(clock) => Some(clock.number()),
        None => None,
    }
}

fn make_tree(alloc: Global, edit: u64, create: Option<u64>, ops: &Name) -> Result<Tree, Memory>
    ensures { IfOk result (λ t. t ≡ tree_with edit create ops.now) }
{
    let mut entries = Vec::new(alloc);
    entries.push(plain_entry(alloc, "ops", *ops)?)?;
    entries.push(number_entry(alloc, "version-", VERSION)?)?;
    entries.push(number_entry(alloc, "edit-clock-", edit)?)?;
    if let Some(clock) = create {
        entries.push(number_entry(alloc, "create-clock-", clock)?)?;
    }
    Ok(Tree {
        entries: List::from_vec(entries),
    })
}

/// The tree of a pack whose text is the object `ops`: the entries `ops`, `version-4`, `edit-clock-`
/// with the edit clock, and `create-clock-` with the create clock where it is given, all of mode
/// 100644; all but `ops` name the empty blob. It can be written by `Tree::write`.
pub fn tree_for(alloc: Global, edit: Time, create: Option<Time>, ops: &Name) -> Result<Tree, Memory>
    ensures edit { IsClock edit }
    ensures create { ForSome create (λ clock. IsClock clock) }
    ensures tree { IfOk result (λ t. t ≡ tree_with edit create ops.now) }
    ensures head { IfOk result (λ t. head_of t
        ≡ Some (record { version = VERSION; edit = edit; create = create; ops = ops.now })) }
    ensures names { IfOk result (λ t. HasGoodNames t) }
{
    make_tree(alloc, edit.number(), create_number(create), ops)
}
