//! What tests of `run` use: runs by arguments, rows of runs, and scripts of runs and files. The
//! first row or step that is wrong is reported with both texts.
#![tactic(auto)]

mod faults;
mod known;
mod rows;
mod runs;
mod script;

pub use faults::goes_on;
pub use rows::{Row, hold};
pub use runs::{
    DISK_FAULT, DONE, MEMORY, OUT_FAULT, REFUSED, USAGE, USAGE_LINE, expect, expect_at, run_at,
    run_into, run_words, sink,
};
pub use script::{Script, Step};
