//! Labels that are named, and those of them that change.
ghost use Rattle.std.specs.Prelude.{◌≡◌, IfOk};
ghost use Rattle.bug_ops.specs.BugForms.{AreLabels};
ghost use Rattle.bug_edits.specs.EditTable.{labels_on, named_off, named_on, named_where};
ghost use Rattle.bug_edits.specs.NewOps.{texts_of};

use bug_ops::{BugOp, copy_text};
use gb_text::{List, Memory, Text, Title};
use snapshot::has_label;
use std::alloc::Global;
use std::collections::BTreeSet;

/// The labels that are named and that a bug does not have, in byte order, each once.
pub(crate) fn named_off(alloc: Global, named: &[Title], ops: &[BugOp]) -> Result<List<Text>, Memory>
    ensures labels { IfOk result (λ l. l ≡ named_off (labels_on ops.now) (texts_of named.now)) }
    ensures rules { IfOk result (λ labels. AreLabels labels) }
{
    named_where(alloc, false, named, ops)
}

/// The labels that are named and that a bug has, in byte order, each once.
pub(crate) fn named_on(alloc: Global, named: &[Title], ops: &[BugOp]) -> Result<List<Text>, Memory>
    ensures labels { IfOk result (λ l. l ≡ named_on (labels_on ops.now) (texts_of named.now)) }
    ensures rules { IfOk result (λ labels. AreLabels labels) }
{
    named_where(alloc, true, named, ops)
}

// The labels that are named and that a bug has, or those that it does not have.
fn named_where(
    alloc: Global,
    on: bool,
    named: &[Title],
    ops: &[BugOp],
) -> Result<List<Text>, Memory>
    ensures labels { IfOk result (λ l. l
        ≡ named_where on (labels_on ops.now) (texts_of named.now)) }
    ensures rules { IfOk result (λ labels. AreLabels labels) }
{
    let mut found = BTreeSet::new(alloc);
    for label in named {
        if has_label(ops, &label.text) == on {
            found.insert(copy_text(alloc, &label.text)?)?;
        }
    }
    listed(alloc, found)
}

// The labels of a set, in its order.
fn listed(alloc: Global, labels: BTreeSet<Text>) -> Result<List<Text>, Memory>
    ensures { IfOk result (λ list. list ≡ labels.keys) }
{
    let mut list = Vec::new(alloc);
    for label in labels {
        list.push(label)?;
    }
    Ok(List::from_vec(list))
}
