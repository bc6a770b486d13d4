//! How a run ends.
use repo_steps::Refusal;
use words::BadWord;

/// How a run of the program ends.
#[derive(Debug, Drop)]
pub enum Status {
    /// The command was done, and its text was printed.
    Done,
    /// The command was refused, and the refusal's line was printed.
    Refused(Refused),
    /// The arguments give no command, and the usage line was printed.
    Usage,
    /// The store failed. Nothing was printed.
    DiskFault,
    /// Memory ran out. Nothing was printed, or a prefix of the text where the sink itself ran out of
    /// memory.
    Memory,
    /// The sink failed. A prefix of the text was printed.
    OutFault,
}

/// Why a run was refused. Refusals are told by number, and some numbers are not used yet.
#[derive(Debug, Drop)]
pub enum Refused {
    /// 4, 11, 12, 16 and 17: the arguments alone refuse it.
    ByWords(BadWord),
    /// The command was refused by what it found in the folder.
    ByCommand(Refusal),
    /// 15: so many of the lines that were printed are refusals. It has no line of its own.
    SomeLines(u64),
}
