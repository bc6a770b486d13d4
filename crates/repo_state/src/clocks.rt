//! The clocks of a folder.
ghost use Rattle.std.specs.Prelude.{◌≡◌, IsTrue, IsErrOf, IfOk, decimal, false};
ghost use Rattle.gb_store.specs.Faults.{KeepsFaults};
ghost use Rattle.gb_store.specs.Files.{files_of};
ghost use Rattle.gb_store.specs.ObjectPath.{is_object_path};
ghost use Rattle.gb_text.specs.Folder.{joined};
ghost use Rattle.repo_state.specs.Answers.{SeeAnswers};
ghost use Rattle.repo_state.specs.Clocks.{clock_at, clock_place, clock_write, see_writes};

use gb_store::{Change, Content, Store, StoreFault, write_all};
use gb_text::{Bytes, Folder, List, Memory, Text, push_number};
use lamport::Clock;
use ref_store::MOST_BYTES;
use std::alloc::Global;

/// The clock files of a folder.
#[derive(Clone, Copy, Debug, PartialEq, Eq)]
pub enum ClockFile {
    /// The greatest create clock that was seen of a bug, up to 2^62.
    BugsCreate,
    /// The greatest edit clock that was seen of one, up to 2^62.
    BugsEdit,
}

/// The clock that a file says: 0 where none stands, it has more than 4,096 bytes, or it is no clock.
pub fn clock<S: Store>(
    alloc: Global,
    disk: &mut S,
    folder: &Folder,
    which: ClockFile,
) -> Result<Clock, StoreFault>
    ensures answers { IsTrue S.tells → IfOk result
        (λ clock. clock ≡ clock_at (files_of (S.history disk.old)) folder.now which) }
    ensures unwritten { IsTrue S.tells → S.history disk.new ≡ S.history disk.old }
    ensures reads { S.object_reads disk.new ≡ S.object_reads disk.old }
    ensures caused { KeepsFaults S.never_fails S.faults (IsErrOf result StoreFault.Failed)
        disk.old disk.new }
{
    let path = clock_path(alloc, folder, which)?;
    match disk.read(alloc, path.as_str(), MOST_BYTES)? {
        Content::Whole(text) => Ok(Clock::read(text.as_slice())),
        Content::Absent | Content::Long => Ok(Clock::read(b"")),
    }
}

/// Lets a clock see a number. Where it is done the file was written, without a line feed, exactly where
/// the clock changes.
pub fn see<S: Store>(
    alloc: Global,
    disk: &mut S,
    folder: &Folder,
    which: ClockFile,
    number: u64,
) -> Result<(), StoreFault>
    ensures answers { IsTrue S.tells
        → SeeAnswers folder.now which number (S.history disk.old) (S.history disk.new) result }
    ensures reads { S.object_reads disk.new ≡ S.object_reads disk.old }
    ensures caused { KeepsFaults S.never_fails S.faults (IsErrOf result StoreFault.Failed)
        disk.old disk.new }
{
    let clock = clock(alloc, disk, folder, which)?;
    let changes = clock_changes(alloc, folder, which, clock, number)?;
    write_all(alloc, disk, changes.as_slice())
}

/// The write of a clock that sees a number, where the clock changes: none or one.
pub fn clock_changes(
    alloc: Global,
    folder: &Folder,
    which: ClockFile,
    clock: Clock,
    number: u64,
) -> Result<List<Change>, Memory>
    ensures { IfOk result (λ changes. changes ≡ see_writes folder.now which clock number) }
{
    let mut seen = clock;
    seen.see(number);
    let mut changes = Vec::new(alloc);
    if clock.value() < seen.value() {
        changes.push(clock_change(alloc, folder, which, seen.value())?)?;
    }
    Ok(List::from_vec(changes))
}

// The write of a clock: its decimal, with no line feed behind it.
fn clock_change(
    alloc: Global,
    folder: &Folder,
    which: ClockFile,
    number: u64,
) -> Result<Change, Memory>
    ensures { IfOk result (λ change. change ≡ clock_write folder.now which number) }
{
    Ok(Change {
        path: clock_path(alloc, folder, which)?,
        bytes: Some(clock_text(alloc, number)?),
    })
}

// The text of a clock file.
fn clock_text(alloc: Global, number: u64) -> Result<Bytes, Memory>
    ensures { IfOk result (λ text. text ≡ decimal number) }
{
    let mut text = String::new(alloc);
    push_number(&mut text, number)?;
    Ok(Bytes::from_vec(text.into_bytes()))
}

// Where a clock file stands. No folder has an object there.
fn clock_path(alloc: Global, folder: &Folder, which: ClockFile) -> Result<Text, Memory>
    ensures path { IfOk result (λ path. path ≡ joined folder.now (clock_place which)) }
    ensures no_object { IfOk result (λ path. is_object_path path ≡ false) }
{
    match which {
        ClockFile::BugsCreate => folder.join(alloc, "git-bug/clocks/bugs-create"),
        ClockFile::BugsEdit => folder.join(alloc, "git-bug/clocks/bugs-edit"),
    }
}
