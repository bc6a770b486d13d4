//! Tests of the commands that edit, over a store and a sink in memory. They stand apart, so that the
//! proofs of `bug_run` are made once.
#![tactic(auto)]

#[cfg(test)]
mod bugs;
#[cfg(test)]
mod calls;
#[cfg(test)]
mod changes;
#[cfg(test)]
mod comments;
#[cfg(test)]
mod damage;
#[cfg(test)]
mod dashes;
#[cfg(test)]
mod people;
#[cfg(test)]
mod prefixes;
