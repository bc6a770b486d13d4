//! The top call.
ghost use Rattle.std.specs.Prelude.{◌≡◌, ◌↔◌, IsTrue, IsErrOf, IsOk, map, string_bytes};
ghost use Rattle.gb_store.specs.Faults.{KeepsFaults};
ghost use Rattle.gb_store.specs.Files.{files_of};
ghost use Rattle.gb_store.specs.Moments.{WroteByIf};
ghost use Rattle.bug_run.specs.Headline.{HeadlineHolds, OwnIsSound};
ghost use Rattle.bug_run.specs.Printed.{HasLines, Printed};
ghost use Rattle.bug_run.specs.Looks.{ReadsGuarded};
ghost use Rattle.bug_run.specs.Reads.{ReadsCommand, ReadsRun};
ghost use Rattle.bug_run.specs.Run.{CommandAnswers, RequestAnswers, RunAnswers, RunStaysSound, RunWrites, call_of, status_of, text_of};
ghost use Rattle.bug_run.specs.Refusals.{refusal_line};
ghost use Rattle.words.specs.Words.{asked_of};

use crate::answer::Answer;
use crate::exchange::{exchange, merge_tracked};
use crate::list::list;
use crate::look::look;
use crate::pack::pack;
use crate::print::print;
use crate::refusal::refusal_line;
use crate::status::{Refused, Status};
use bug_edits::Moment;
use gb_store::{Sink, Store};
use repo_edit::run_edit;
use repo_steps::{Env, Stop};
use repo_view::{log, show, users};
use std::alloc::Global;
use words::{Asked, Command, Request};

/// Does what the arguments ask over the store, and prints to the sink: the command's text, the line of
/// its refusal, or how the program is used. `asked` is what the arguments were read as. All writes come
/// first, and the text is made whole before its first byte is printed.
pub fn run<S: Store, K: Sink>(
    alloc: Global,
    words: &[String],
    asked: Asked,
    disk: &mut S,
    out: &mut K,
    moment: Moment,
) -> Status
    requires read { asked ≡ asked_of (map string_bytes words.now) }
    ensures answers { RunAnswers (call_of S.tells K.tells K.takes_memory
        (asked_of (map string_bytes words.now)) moment)
        (S.history disk.old) (S.history disk.new)
        (K.written out.old) (K.written out.new) result }
    ensures headline { IsTrue S.tells → IsTrue K.tells
        → OwnIsSound (asked_of (map string_bytes words.now)) (files_of (S.history disk.old))
        → HeadlineHolds (asked_of (map string_bytes words.now)) moment
        (S.history disk.old) (S.history disk.new) (K.written out.old) (K.written out.new) result }
    ensures wrote { WroteByIf S.tells (RunWrites (call_of S.tells K.tells K.takes_memory
        (asked_of (map string_bytes words.now)) moment))
        (S.history disk.old) (S.history disk.new) }
    ensures sound { IsTrue S.tells → RunStaysSound (asked_of (map string_bytes words.now))
        (S.history disk.old) (S.history disk.new) }
    ensures reads { IsTrue S.tells → ReadsRun (asked_of (map string_bytes words.now)) moment.now
        (S.history disk.old) (result ≡ Status.Done) (HasLines result)
        (S.object_reads disk.old) (S.object_reads disk.new) }
    ensures disk { KeepsFaults S.never_fails S.faults (result ≡ Status.DiskFault)
        disk.old disk.new }
    ensures sink { KeepsFaults K.never_fails K.faults (result ≡ Status.OutFault)
        out.old out.new }
{
    match asked {
        Asked::Nothing => print(alloc, out, USAGE.as_bytes(), Status::Usage),
        Asked::Refused(bad) => print_refusal(alloc, out, Refused::ByWords(bad)),
        Asked::Request(request) => {
            let outcome = perform(alloc, disk, request, moment);
            tell(alloc, out, outcome)
        }
        Asked::Exchange(request) => {
            let outcome = exchange(alloc, disk, &request, moment);
            tell(alloc, out, outcome)
        }
        Asked::Merge(request) => {
            let outcome = merge_tracked(alloc, disk, &request, moment);
            tell(alloc, out, outcome)
        }
        Asked::List(request) => {
            let outcome = list(alloc, disk, &request);
            tell(alloc, out, outcome)
        }
    }
}

/// What is printed where the arguments give no command.
pub const USAGE: &str = "usage: gitbug FOLDER COMMAND ARGUMENTS\n";

// Does what is asked, where the packed refs of the folder read.
fn perform<S: Store>(
    alloc: Global,
    disk: &mut S,
    request: Request,
    moment: Moment,
) -> Result<Answer, Stop>
    ensures answers { RequestAnswers S.tells request moment
        (S.history disk.old) (S.history disk.new) result }
    ensures reads { IsTrue S.tells → ReadsGuarded (IsOk result)
        (ReadsCommand (files_of (S.history disk.old)) request.folder request.command
        (IsOk result) (S.object_reads disk.old) (S.object_reads disk.new))
        (S.object_reads disk.old) (S.object_reads disk.new) }
    ensures caused { KeepsFaults S.never_fails S.faults (IsErrOf result Stop.Disk)
        disk.old disk.new }
{
    let Request { folder, command } = request;
    look(alloc, disk, &folder)?;
    let env = Env { folder, moment };
    run_command(alloc, disk, &env, &command)
}

// Carries out a command.
fn run_command<S: Store>(
    alloc: Global,
    disk: &mut S,
    env: &Env,
    command: &Command,
) -> Result<Answer, Stop>
    ensures answers { IsTrue S.tells → CommandAnswers env.now command.now
        (S.history disk.old) (S.history disk.new) result }
    ensures reads { IsTrue S.tells → ReadsCommand (files_of (S.history disk.old))
        env.now.folder command.now (IsOk result)
        (S.object_reads disk.old) (S.object_reads disk.new) }
    ensures caused { KeepsFaults S.never_fails S.faults (IsErrOf result Stop.Disk)
        disk.old disk.new }
{
    match command {
        Command::Users => Ok(Answer::text(users(alloc, disk, &env.folder)?)),
        Command::Show { bug } => Ok(Answer::text(show(alloc, disk, &env.folder, bug.as_str())?)),
        Command::Log { bug } => Ok(Answer::text(log(alloc, disk, &env.folder, bug.as_str())?)),
        Command::Edit(command) => Ok(Answer::line(run_edit(alloc, disk, env, command)?)),
        Command::PackRefs => pack(alloc, disk, &env.folder),
    }
}

// Prints the text of an answer, and answers its status.
fn tell<K: Sink>(alloc: Global, out: &mut K, outcome: Result<Answer, Stop>) -> Status
    ensures answers { Printed K.tells K.takes_memory
        (text_of outcome) (status_of outcome)
        (K.written out.old) (K.written out.new) result }
    ensures disk { result ≡ Status.DiskFault ↔ IsErrOf outcome Stop.Disk }
    ensures caused { KeepsFaults K.never_fails K.faults (result ≡ Status.OutFault)
        out.old out.new }
{
    match outcome {
        Ok(answer) => answer.print(alloc, out),
        Err(Stop::Memory) => Status::Memory,
        Err(Stop::Disk) => Status::DiskFault,
        Err(Stop::Refused(refusal)) => print_refusal(alloc, out, Refused::ByCommand(refusal)),
    }
}

// Prints the line of a refusal, and answers its status.
fn print_refusal<K: Sink>(alloc: Global, out: &mut K, refused: Refused) -> Status
    ensures answers { Printed K.tells K.takes_memory
        (refusal_line refused) (Status.Refused refused)
        (K.written out.old) (K.written out.new) result }
    ensures disk { result ≡ Status.DiskFault → ⊥ }
    ensures caused { KeepsFaults K.never_fails K.faults (result ≡ Status.OutFault)
        out.old out.new }
{
    match refusal_line(alloc, &refused) {
        Ok(line) => print(
            alloc,
            out,
            line.as_str().as_bytes(),
            Status::Refused(refused),
        ),
        Err(_) => Status::Memory,
    }
}
