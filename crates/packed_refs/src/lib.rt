//! Packed refs: many refs in one text, a line each, as Git keeps them in `packed-refs`.
#![tactic(auto)]

mod laws;
mod line;
mod packed;
mod ref_line;
mod written;

pub use laws::{
    heads_in_a_dir_are_heads, lines_are_ended_by_line_feeds, names_below_a_dir_are_ids,
    packed_texts_read_back, the_last_line_counts,
};
pub use packed::{PackedHead, head_of, heads_in, is_packed, refs};
pub use ref_line::{RefLine, RefName};
pub use written::packed_text;
