//! Tests of `dag_entity`. They stand apart, so that the proofs of that are made once.
#![tactic(auto)]

#[cfg(test)]
mod appending;
#[cfg(test)]
mod both;
#[cfg(test)]
mod bugs;
#[cfg(test)]
mod cases;
#[cfg(test)]
mod faults;
#[cfg(test)]
mod graphs;
#[cfg(test)]
mod large;
#[cfg(test)]
mod since;
