//! What every operation has, and which rules a kind of operations must satisfy.
#![tactic(auto)]

mod any_op;
mod common;
mod fault;
mod forms;
mod kind;
mod laws;
mod members;
mod metadata;
mod nonce;
mod place;
mod written;

pub use any_op::AnyOp;
pub use common::{common_in, read_common};
pub use fault::OpFault;
pub use forms::{decimal_in, id_in, optional_text_in, pairs_in, read_texts, text_in, texts_in};
pub use kind::OpKind;
pub use laws::{
    common_part_or_fault, folds_append, kinds_read_what_they_write, member_value_or_fault,
    nonces_have_20_to_64_bytes, null_and_absent_members_are_empty, operations_need_their_members,
    pairs_are_in_key_order, read_values_are_within_bounds, written_members_read_back,
    written_values_are_values, written_values_read_back,
};
pub use members::{Field, find, read_fields, read_text};
pub use metadata::read_pairs;
pub use nonce::{LEAST_NONCE, MOST_NONCE, Nonce};
pub use place::{Common, Pair, Place, VERSION};
pub use written::{
    Written, common_members, print_decimal, put_member, quote, quote_nonce, quote_pairs,
    quote_texts, write_members,
};
