//! What is printed of a world.
ghost use Rattle.std.specs.Prelude.{◌≡◌, ◌≤◌, ◌++◌, length, IfOk, OnOk, string_bytes};
ghost use Rattle.world_texts.specs.Summary.{are_equal, count_line, count_lines, each_has, folder_line, folder_lines, has, summary_of, verdict_of};

use gb_text::{Id, Memory, Text, push_id, push_line_end, push_number};
use std::alloc::{AllocError, Global};
use world_events::folder_word;

/// How many events there were, and how many of them ended in which way.
#[derive(Clone, Copy, Debug, PartialEq, Eq)]
pub struct Tally {
    pub events: u64,
    pub done: u64,
    pub refused: u64,
    pub skipped: u64,
}

/// How many bugs a folder has, and the hash of what it shows of them.
#[derive(Clone, Copy, Debug, PartialEq, Eq)]
pub struct Digest {
    pub bugs: u64,
    pub hash: Id,
}

/// The counts of events, a line for each folder in order, and whether all digests are the same.
pub fn summary_text(alloc: Global, tally: &Tally, digests: &[Digest]) -> Result<Text, Memory>
    requires { length digests.now ≤ 16 }
    ensures { IfOk result (λ text. text ≡ summary_of tally.entry.now digests.entry.now) }
{
    let mut text = String::new(alloc);
    push_counts(&mut text, tally)?;
    push_folders(alloc, &mut text, digests)?;
    text.push_str(verdict(digests))?;
    Ok(Text::from_string(text))
}

// The lines of the counts.
fn push_counts(text: &mut String, tally: &Tally) -> Result<(), AllocError>
    ensures { OnOk result (string_bytes text.new
        ≡ string_bytes text.old ++ count_lines tally.entry.now) }
{
    push_count(text, "events ", tally.events)?;
    push_count(text, "done ", tally.done)?;
    push_count(text, "refused ", tally.refused)?;
    push_count(text, "skipped ", tally.skipped)
}

fn push_count(text: &mut String, name: &str, count: u64) -> Result<(), AllocError>
    ensures { OnOk result (string_bytes text.new
        ≡ string_bytes text.old ++ count_line name.entry.now count) }
{
    text.push_str(name)?;
    push_number(text, count)?;
    push_line_end(text)
}

// A line for each folder.
fn push_folders(alloc: Global, text: &mut String, digests: &[Digest]) -> Result<(), Memory>
    requires { length digests.now ≤ 16 }
    ensures { OnOk result (string_bytes text.new
        ≡ string_bytes text.old ++ folder_lines 0 digests.entry.now) }
{
    for (folder, digest) in digests.iter().enumerate() {
        push_folder(alloc, text, folder as u32, digest)?;
    }
    Ok(())
}

#[tactic(auto, unfolding(crate::specs::Summary::folder_line))]
fn push_folder(alloc: Global, text: &mut String, folder: u32, digest: &Digest) -> Result<(), Memory>
    ensures { OnOk result (string_bytes text.new
        ≡ string_bytes text.old ++ folder_line folder digest.entry.now) }
{
    let word = folder_word(alloc, folder)?;
    text.push_str("folder ")?;
    text.push_str(word.as_str())?;
    text.push_str(" bugs ")?;
    push_number(text, digest.bugs)?;
    text.push_str(" digest ")?;
    push_id(text, &digest.hash)?;
    push_line_end(text)?;
    Ok(())
}

// The last line.
fn verdict(digests: &[Digest]) -> &'static str
    ensures { result.now ≡ verdict_of digests.now }
{
    if are_equal(digests) {
        "equal\n"
    } else {
        "differ\n"
    }
}

// Whether all digests are the same.
fn are_equal(digests: &[Digest]) -> bool
    ensures { result ≡ are_equal digests.now }
{
    match digests {
        [] => true,
        [first, others @ ..] => each_has(others, &first.hash),
    }
}

// Whether each digest has this hash.
fn each_has(digests: &[Digest], hash: &Id) -> bool
    ensures { result ≡ each_has hash.now digests.now }
{
    digests.iter().all(|digest| has(digest, hash))
}

fn has(digest: &Digest, hash: &Id) -> bool
    ensures { result ≡ has hash.now digest.now }
{
    digest.hash.bytes == hash.bytes
}
