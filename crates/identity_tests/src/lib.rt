//! Tests of `identity`.
#![tactic(auto)]

#[cfg(test)]
mod advancing;
#[cfg(test)]
mod chains;
#[cfg(test)]
mod making;
#[cfg(test)]
mod versions;
