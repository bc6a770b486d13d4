//! What a list of bugs is filtered and ordered by.
#![tactic(auto)]

mod cut;
mod cut_laws;
mod draft;
mod fault;
mod fields;
mod folding;
mod folds;
mod laws;
mod order;
mod persons;
mod print;
mod query;
mod read;
mod row_laws;
mod rows;
mod term;
mod value;
mod words;

pub use cut_laws::{
    one_query_is_read, pairs_are_cut_at_the_first_colon, printed_texts_are_printed_again,
    words_are_cut_at_blanks,
};
pub use fault::QueryFault;
pub use laws::{
    answers_are_the_rows_that_match, open_quotes_are_the_last_of_an_odd_number,
    printed_queries_read_back, read_queries_are_sayable, the_first_fault_decides,
    values_say_their_texts, words_stand_at_their_places,
};
pub use query::{Query, SortKey};
pub use row_laws::{further_alternatives_lose_no_row, further_demands_add_no_row};
pub use rows::select;
