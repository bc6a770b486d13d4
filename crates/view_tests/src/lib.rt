//! Tests of `columns`, `combined_id`, `render`, `query` and `list_texts`. They stand apart, so that
//! the proofs of these are made once.
#![tactic(auto)]

#[cfg(test)]
mod cells;
#[cfg(test)]
mod ids;
#[cfg(test)]
mod lists;
#[cfg(test)]
mod queries;
#[cfg(test)]
mod shows;
