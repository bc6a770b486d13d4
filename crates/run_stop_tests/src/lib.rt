//! Tests of runs that stop after any write, and of runs in which a call of the store or the sink
//! fails.
#![tactic(auto)]

#[cfg(test)]
mod cases;
#[cfg(test)]
mod edits;
#[cfg(test)]
mod exchanges;
#[cfg(test)]
mod failures;
#[cfg(test)]
mod seen;
#[cfg(test)]
mod sinks;
