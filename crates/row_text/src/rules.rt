//! The rules for rows: which of them read back from what is written.
ghost use Rattle.std.specs.Prelude.{◌↔◌, IsTrue};
ghost use Rattle.std.specs.Str.{IsUtf8};
ghost use Rattle.gb_text.specs.Digits.{IsId, IsName};
ghost use Rattle.op_kind.specs.Pairs.{EachPairUtf8};
ghost use Rattle.bug_ops.specs.BugForms.{AreLabels, ArePairs, IsTitle};
ghost use Rattle.row_text.specs.RowForms.{AreIds, AreRowLabels};
ghost use Rattle.row_text.specs.Rows.{HaveTimes, RowRules};

use crate::lists::{ascend, keys_ascend};
use crate::row::HeadRow;
use bug_ops::Excerpt;
use gb_text::{GREATEST_TIME, Id, Name, Text, is_title};
use op_kind::Pair;

impl HeadRow {
    /// Whether the row satisfies the rules for rows: its title and its labels are titles, its labels and the
    /// keys of its metadata ascend in byte order, and each number is at most 2^63 - 1.
    pub fn satisfies_rules(&self) -> bool
        ensures { IsTrue result ↔ RowRules self.now }
    {
        let row = &self.row;
        look_at_head(&self.head);
        look_at_id(&row.id);
        look_at_id(&row.author);
        look_at_ids(row.actors.as_slice());
        look_at_ids(row.participants.as_slice());
        have_times(row)
            && is_row_title(row.title.as_str())
            && are_labels(row.labels.as_slice())
            && are_pairs(row.metadata.as_slice())
    }
}

// An object name has 20 bytes.
fn look_at_head(head: &Name)
    ensures { IsName head.now }
{
    let _digits = head.text();
}

// An id has 32 bytes.
fn look_at_id(id: &Id)
    ensures { IsId id.now }
{
    let _digits = id.text();
}

// So have these.
fn look_at_ids(ids: &[Id])
    ensures { AreIds ids.now }
{
    for id in ids {
        look_at_id(id);
    }
}

// Whether each number is at most 2^63 - 1.
fn have_times(row: &Excerpt) -> bool
    ensures { IsTrue result ↔ HaveTimes row.now }
{
    row.create <= GREATEST_TIME
        && row.edit <= GREATEST_TIME
        && row.first <= GREATEST_TIME
        && row.last <= GREATEST_TIME
        && row.comments <= GREATEST_TIME
}

// Whether a text is a title.
fn is_row_title(text: &str) -> bool
    ensures { IsTrue result ↔ IsTitle text.now }
{
    is_title(text)
}

// Whether each text is a title, and they ascend.
fn are_labels(labels: &[Text]) -> bool
    ensures { IsTrue result ↔ AreRowLabels labels.now }
{
    are_titles(labels) && ascend(labels)
}

// Whether each text is a title.
fn are_titles(labels: &[Text]) -> bool
    ensures { IsTrue result ↔ AreLabels labels.now }
{
    for label in labels {
        if !is_row_title(label.as_str()) {
            return false;
        }
    }
    true
}

// Whether the keys of pairs ascend.
fn are_pairs(pairs: &[Pair]) -> bool
    ensures { IsTrue result ↔ ArePairs pairs.now }
{
    look_at_pairs(pairs);
    keys_ascend(pairs)
}

// Keys and values are UTF-8.
fn look_at_pairs(pairs: &[Pair])
    ensures { EachPairUtf8 pairs.now }
{
    for pair in pairs {
        look_at_text(pair.key.as_str());
        look_at_text(pair.value.as_str());
    }
}

// A `str` is UTF-8.
fn look_at_text(text: &str)
    ensures { IsUtf8 text.now }
{
    let _text = text;
}
