//! A bug's row with its head.
use bug_ops::Excerpt;
use gb_text::Name;

/// What lists show of a bug, and the head of the bug that it was made from.
#[derive(Drop)]
pub struct HeadRow {
    pub head: Name,
    pub row: Excerpt,
}
