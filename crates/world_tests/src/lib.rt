//! Tests of worlds: events that are played, stopped and exchanged, and what is printed of them.
#![tactic(auto)]

#[cfg(test)]
mod events;
#[cfg(test)]
mod printed;
#[cfg(test)]
mod stops;
