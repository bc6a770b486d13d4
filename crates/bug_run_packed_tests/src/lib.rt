//! Tests of `run` over folders with packed refs: what is read of them, what refuses them, and
//! how refs are packed.
#![tactic(auto)]

#[cfg(test)]
mod damage;
#[cfg(test)]
mod exchanges;
#[cfg(test)]
mod limits;
#[cfg(test)]
mod many;
#[cfg(test)]
mod packing;
#[cfg(test)]
mod reading;
