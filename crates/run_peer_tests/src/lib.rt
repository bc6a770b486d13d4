//! Tests of pulls from a peer with one faulty entity: its line, and that nothing else changes.
#![tactic(auto)]

#[cfg(test)]
mod cases;
#[cfg(test)]
mod commits;
#[cfg(test)]
mod objects;
#[cfg(test)]
mod people;
#[cfg(test)]
mod pulls;
