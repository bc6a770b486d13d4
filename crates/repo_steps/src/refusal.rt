//! Why commands that edit are refused, and why they stop.
use bug_edits::{EditStop, NoChange};
use gb_store::StoreFault;
use gb_text::{Id, Memory, Name, Text};
use object_store::PutFault;
use repo_state::{FindStop, Missed, ReadStop};
use std::alloc::AllocFailed;

/// Why a command that edits was refused. The variants are told by number, and some numbers are not used yet.
#[derive(Debug, Drop)]
pub enum Refusal {
    /// 1: no user file exists.
    NoUser,
    /// 2: the argument names nothing of the kind that is sought.
    NotFound,
    /// 3: the argument names several, of which these are the two least, the lesser first.
    Ambiguous(Id, Id),
    /// 5: each label that was named is on already, or none of those to be taken off is on.
    NoLabelChange,
    /// 6: the bug has the status already.
    SameStatus,
    /// 7: the edit clock of the bug's head, of this name, is 2^63 - 1, so that no later one is left.
    ClockFull(Name),
    /// 8: the bug has the operation of this id already.
    RepeatedOperation(Id),
    /// 9: an entity of this id exists already.
    EntityExists(Id),
    /// 10: another text is stored under this name of an object that was to be written, or two of them
    /// have the name.
    NameTaken(Name),
    /// 13: 65,537 versions or commits, or 4,194,305 bytes of an object.
    TooLarge(u64),
    /// 14: the file at this path breaks its grammar, names a head that has a fault, or is a user
    /// file that names no local identity.
    Damaged(Text),
}

impl Refusal {
    ghost use Rattle.std.specs.Prelude.{◌≡◌};
    ghost use Rattle.repo_steps.specs.Stops.{number_of};

    /// The number by which it is told.
    pub fn number(&self) -> u64
        ensures { result ≡ number_of self.now }
    {
        match self {
            Refusal::NoUser => 1,
            Refusal::NotFound => 2,
            Refusal::Ambiguous(_, _) => 3,
            Refusal::NoLabelChange => 5,
            Refusal::SameStatus => 6,
            Refusal::ClockFull(_) => 7,
            Refusal::RepeatedOperation(_) => 8,
            Refusal::EntityExists(_) => 9,
            Refusal::NameTaken(_) => 10,
            Refusal::TooLarge(_) => 13,
            Refusal::Damaged(_) => 14,
        }
    }
}

/// Why a command that edits gave no answer.
#[derive(Debug, Drop)]
pub enum Stop {
    Memory,
    /// The store failed.
    Disk,
    Refused(Refusal),
}

impl From<Memory> for Stop {
    ghost use Rattle.std.specs.Prelude.{◌≡◌};
    ghost use Rattle.repo_steps.specs.declared.refusal.Stop.TheVariants as stop;

    ghost from_gives = { λ _ e. e ≡ stop.Memory };

    fn from(_: Memory) -> Self {
        Stop::Memory
    }
}

impl<T: Drop> From<AllocFailed<T>> for Stop {
    ghost use Rattle.std.specs.Prelude.{◌≡◌};
    ghost use Rattle.repo_steps.specs.declared.refusal.Stop.TheVariants as stop;

    ghost from_gives = { λ _ e. e ≡ stop.Memory };

    fn from(_: AllocFailed<T>) -> Self {
        Stop::Memory
    }
}

impl From<StoreFault> for Stop {
    ghost use Rattle.std.specs.Prelude.{◌≡◌};
    ghost use Rattle.repo_steps.specs.Stops.{stop_of_store};

    ghost from_gives = { λ fault e. e ≡ stop_of_store fault };

    fn from(fault: StoreFault) -> Self {
        match fault {
            StoreFault::Memory => Stop::Memory,
            StoreFault::Failed => Stop::Disk,
        }
    }
}

impl From<ReadStop> for Stop {
    ghost use Rattle.std.specs.Prelude.{◌≡◌};
    ghost use Rattle.repo_steps.specs.Stops.{stop_of_read};

    ghost from_gives = { λ read e. e ≡ stop_of_read read };

    fn from(read: ReadStop) -> Self {
        match read {
            ReadStop::Memory => Stop::Memory,
            ReadStop::Disk => Stop::Disk,
            ReadStop::Damaged(path) => Stop::Refused(Refusal::Damaged(path)),
        }
    }
}

impl From<FindStop> for Stop {
    ghost use Rattle.std.specs.Prelude.{◌≡◌};
    ghost use Rattle.repo_steps.specs.Stops.{stop_of_find};

    ghost from_gives = { λ find e. e ≡ stop_of_find find };

    fn from(find: FindStop) -> Self {
        match find {
            FindStop::Memory => Stop::Memory,
            FindStop::Disk => Stop::Disk,
            FindStop::Missed(Missed::NotFound) => Stop::Refused(Refusal::NotFound),
            FindStop::Missed(Missed::Ambiguous(least, next)) => {
                Stop::Refused(Refusal::Ambiguous(least, next))
            }
            FindStop::Missed(Missed::Damaged(path)) => Stop::Refused(Refusal::Damaged(path)),
        }
    }
}

impl From<EditStop> for Stop {
    ghost use Rattle.std.specs.Prelude.{◌≡◌};
    ghost use Rattle.repo_steps.specs.Stops.{stop_of_edit};

    ghost from_gives = { λ edit e. e ≡ stop_of_edit edit };

    fn from(edit: EditStop) -> Self {
        match edit {
            EditStop::Memory => Stop::Memory,
            EditStop::NoChange(NoChange::SameStatus) => Stop::Refused(Refusal::SameStatus),
            EditStop::NoChange(NoChange::NoLabelChange) => Stop::Refused(Refusal::NoLabelChange),
        }
    }
}

impl From<PutFault> for Stop {
    ghost use Rattle.std.specs.Prelude.{◌≡◌};
    ghost use Rattle.repo_steps.specs.Stops.{stop_of_put};

    ghost from_gives = { λ fault e. e ≡ stop_of_put fault };

    fn from(fault: PutFault) -> Self {
        match fault {
            PutFault::Memory => Stop::Memory,
            PutFault::Disk => Stop::Disk,
            PutFault::Large(count) => Stop::Refused(Refusal::TooLarge(count)),
            PutFault::Taken(name) => Stop::Refused(Refusal::NameTaken(name)),
        }
    }
}
