//! Tests of `folder_store` and `gitbug_edge` over real folders. They stand apart, so that the proofs of these are made once.
#![tactic(auto)]

#[cfg(test)]
mod explained;
#[cfg(test)]
mod fake;
#[cfg(test)]
mod folders;
#[cfg(test)]
mod planted;
#[cfg(test)]
mod system;
