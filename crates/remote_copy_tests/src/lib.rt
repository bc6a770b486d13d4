//! Tests of `remote_copy`.
#![tactic(auto)]

#[cfg(test)]
mod limits;
#[cfg(test)]
mod sides;
#[cfg(test)]
mod trees;
