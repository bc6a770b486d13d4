//! Tests of exchanges by the program's arguments, over folders in one store in memory.
#![tactic(auto)]

#[cfg(test)]
mod broken;
#[cfg(test)]
mod commands;
#[cfg(test)]
mod exchanges;
#[cfg(test)]
mod faults;
#[cfg(test)]
mod stops;
