//! Tests of the commands that list bugs, over a store and a sink in memory.
#![tactic(auto)]

#[cfg(test)]
mod lists;
#[cfg(test)]
mod many;
#[cfg(test)]
mod queries;
#[cfg(test)]
mod rows;
