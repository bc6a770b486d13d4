//! Labels in byte order.
ghost use Rattle.std.specs.Prelude.{◌≡◌, IfOk, OnOk};
ghost use Rattle.std.specs.BTreeSet.{IsOrdered};
ghost use Rattle.bug_ops.specs.Folds.{marks_of, without_each};
ghost use Rattle.bug_ops.specs.Snapshots.{by_bytes, changed, with_texts};

use crate::copies::copy_text;
use gb_text::{List, Memory, Text};
use std::alloc::Global;
use std::collections::BTreeSet;

// Puts labels on, one after the other.
fn put_on(alloc: Global, labels: &mut BTreeSet<Text>, added: &[Text]) -> Result<(), Memory>
    requires { IsOrdered by_bytes labels.old }
    ensures labels { OnOk result (marks_of labels.new.keys
        ≡ with_texts (marks_of labels.old.keys) added.now) }
    ensures ascend { OnOk result (IsOrdered by_bytes labels.new) }
{
    for label in added {
        labels.insert(copy_text(alloc, label)?)?;
    }
    Ok(())
}

// Takes labels off, one after the other.
fn take_off(labels: &mut BTreeSet<Text>, removed: &[Text])
    requires { IsOrdered by_bytes labels.old }
    ensures labels { labels.new.keys ≡ without_each labels.old.keys removed.now }
    ensures ascend { IsOrdered by_bytes labels.new }
{
    for label in removed {
        labels.remove(label);
    }
}

/// Puts labels on, and takes labels off. Each is found by the logarithm of the labels.
#[tactic(auto, using(crate::proofs::LabelSets::set_changed_is))]
pub(crate) fn change(
    alloc: Global,
    labels: &mut BTreeSet<Text>,
    added: &[Text],
    removed: &[Text],
) -> Result<(), Memory>
    requires { IsOrdered by_bytes labels.old }
    ensures labels { OnOk result (labels.new.keys
        ≡ changed labels.old.keys added.now removed.now) }
    ensures ascend { OnOk result (IsOrdered by_bytes labels.new) }
{
    put_on(alloc, labels, added)?;
    take_off(labels, removed);
    Ok(())
}

/// The labels of a set, in its order.
pub(crate) fn labels_of(alloc: Global, labels: BTreeSet<Text>) -> Result<List<Text>, Memory>
    ensures { IfOk result (λ l. l ≡ labels.keys) }
{
    let mut kept = Vec::new(alloc);
    for label in labels {
        kept.push(label)?;
    }
    Ok(List::from_vec(kept))
}

/// A copy of the labels of a set, in its order.
pub(crate) fn copy_labels(alloc: Global, labels: &BTreeSet<Text>) -> Result<List<Text>, Memory>
    ensures { IfOk result (λ l. l ≡ labels.now.keys) }
{
    let mut copies = Vec::new(alloc);
    for label in labels {
        copies.push(copy_text(alloc, label)?)?;
    }
    Ok(List::from_vec(copies))
}

/// The labels of a list with those that are added, but for those that are removed, in byte order.
#[tactic(auto, using(crate::proofs::LabelSets::changed_is))]
pub(crate) fn changed_list(
    alloc: Global,
    labels: &[Text],
    added: &[Text],
    removed: &[Text],
) -> Result<List<Text>, Memory>
    ensures { IfOk result (λ l. l ≡ changed labels.now added.now removed.now) }
{
    let mut on = BTreeSet::new(alloc);
    put_on(alloc, &mut on, labels)?;
    put_on(alloc, &mut on, added)?;
    take_off(&mut on, removed);
    labels_of(alloc, on)
}
