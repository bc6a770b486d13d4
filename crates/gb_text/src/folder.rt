//! Folder words, cut into parts, and the paths of files below a folder.
ghost use Rattle.std.specs.Prelude.{◌≡◌, ◌++◌, ◌↔◌, IsTrue, IfOk, OnOk, map, filter, string_bytes, codes, if◌then◌else◌};
ghost use Rattle.std.specs.List.{join_with_byte, list_all, zip};
ghost use Rattle.std.specs.Str.{bytes_eq};
ghost use Rattle.gb_text.specs.Folder.{joined, joint, parts_of, counts, goes_up, is_bad_folder, is_rooted};
ghost use Rattle.gb_text.specs.Overlap.{Overlap, steps_of};

use crate::{Memory, Text, is_line};
use std::alloc::{AllocError, Global};
use std::marker::Model;

/// A normalised folder, which contracts see as its text: the parts with a slash between each
/// two, behind a slash where the folder is rooted. Folders are compared by their words alone, so
/// a link, or an absolute word beside a relative one, isn't seen as the same folder.
#[derive(Debug, Drop)]
pub struct Folder {
    text: Text,
}

impl Model for Folder {
    ghost use Rattle.std.specs.Prelude.{List, ℕ};

    ghost Value = { List ℕ };

    ghost view = { λ f. f.text };
}

/// Why a word gives no folder.
#[derive(Clone, Copy, Debug, PartialEq, Eq)]
pub enum FolderFault {
    Memory,
    /// The word is empty, or has a part `..` or a control character.
    BadFolder,
}

impl From<AllocError> for FolderFault {
    ghost use Rattle.std.specs.Prelude.{◌≡◌};
    ghost use Rattle.gb_text.specs.declared.folder.FolderFault.TheVariants as fault;

    ghost from_gives = { λ _ e. e ≡ fault.Memory };

    fn from(_: AllocError) -> Self {
        FolderFault::Memory
    }
}

impl Folder {
    ghost use Rattle.gb_text.specs.Folder.{folder_of, FolderAnswers};

    /// Reads a folder word: cut at `/`, with empty parts and parts `.` dropped and a leading `/`
    /// kept.
    pub fn read(alloc: Global, word: &str) -> Result<Folder, FolderFault>
        ensures { FolderAnswers (folder_of word.now) result }
    {
        if is_bad(word) {
            return Err(FolderFault::BadFolder);
        }
        let parts = split_word(alloc, word)?;
        let root = if is_rooted(word) { "/" } else { "" };
        let text = join_parts(alloc, root, &parts)?;
        Ok(Folder {
            text: Text::from_string(text),
        })
    }

    /// A copy of the folder, whose text is not read again.
    pub fn copy(&self, alloc: Global) -> Result<Folder, Memory>
        ensures { IfOk result (λ folder. folder ≡ self.now) }
    {
        Ok(Folder {
            text: Text::from_str(alloc, self.text.as_str())?,
        })
    }

    /// The path of a file below the folder: the folder's text, a slash where that text is neither
    /// empty nor `/`, and the rest as it stands.
    pub fn join(&self, alloc: Global, rest: &str) -> Result<Text, Memory>
        ensures { IfOk result (λ path. path ≡ joined self.now rest.now) }
    {
        let mut path = self.path_with_room(alloc, rest.len())?;
        path.push_str(rest)?;
        Ok(Text::from_string(path))
    }

    /// What a path of a file below the folder begins with: the folder's text, and a slash where
    /// that text is neither empty nor `/`. There is room for so many bytes behind it, which then
    /// take no memory of their own.
    pub fn path_with_room(&self, alloc: Global, room: usize) -> Result<String, Memory>
        ensures { IfOk result (λ path. string_bytes path ≡ self.now ++ joint self.now) }
    {
        let folder = self.text.as_str();
        let size = folder.len().saturating_add(1).saturating_add(room);
        let mut path = String::with_capacity(alloc, size)?;
        path.push_str(folder)?;
        if !folder.is_empty() && folder != "/" {
            path.push_str("/")?;
        }
        Ok(path)
    }

    /// The folder's text, without a slash at its end but in `/`.
    pub fn as_str(&self) -> &str
        ensures { result.now ≡ self.now }
    {
        self.text.as_str()
    }

    /// Whether some path can lie below both folders: both are rooted or neither is, and the parts
    /// of one begin with those of the other. Takes no memory.
    pub fn overlaps(&self, other: &Folder) -> bool
        ensures { IsTrue result ↔ Overlap self.now other.now }
    {
        let (one, two) = (self.as_str(), other.as_str());
        is_rooted(one) == is_rooted(two) && steps_agree(one, two)
    }
}

// Whether the word begins with a slash.
fn is_rooted(word: &str) -> bool
    ensures { result ≡ is_rooted word.now }
{
    word.as_bytes().first() == Some(&b'/')
}

// Whether the steps of two words are the same as far as both have some.
fn steps_agree(one: &str, two: &str) -> bool
    ensures { result
        ≡ list_all (λ pair. bytes_eq pair.0 pair.1) (zip (steps_of one.now) (steps_of two.now)) }
{
    let ours = one.split('/').filter(|part| counts(part));
    let theirs = two.split('/').filter(|part| counts(part));
    ours.zip(theirs).all(|(ours, theirs)| ours == theirs)
}

// Whether the word names no folder.
fn is_bad(word: &str) -> bool
    ensures { result ≡ is_bad_folder word.now }
{
    word.is_empty() || !is_line(word) || goes_up(word)
}

// Whether some part is `..`.
fn goes_up(word: &str) -> bool
    ensures { result ≡ goes_up (parts_of word.now) }
{
    word.split('/').any(|part| part == "..")
}

// The parts between slashes.
fn split_word<'a>(alloc: Global, word: &'a str) -> Result<Vec<&'a str>, AllocError>
    ensures { IfOk result (λ parts. map (λ part. part.now) parts.items ≡ parts_of word.now) }
{
    word.split('/').collect(alloc)
}

// The parts that count, with slashes between, behind a root.
fn join_parts(alloc: Global, root: &str, parts: &[&str]) -> Result<String, AllocError>
    ensures { IfOk result (λ text. string_bytes text
        ≡ root.now ++ join_with_byte 47 (filter counts (map (λ part. part.now) parts.now))) }
{
    let mut text = String::from_str(alloc, root)?;
    let mut is_first = true;
    for part in parts {
        if !counts(part) {
            continue;
        }
        push_part(&mut text, is_first, part)?;
        is_first = false;
    }
    Ok(text)
}

// Adds a part, behind a slash unless it is the first.
fn push_part(text: &mut String, is_first: bool, part: &str) -> Result<(), AllocError>
    ensures { OnOk result (string_bytes text.new
        ≡ string_bytes text.old ++ (if is_first then part.now else codes "/" ++ part.now)) }
{
    if !is_first {
        text.push_str("/")?;
    }
    text.push_str(part)?;
    Ok(())
}

fn counts(part: &str) -> bool
    ensures { result ≡ counts part.now }
{
    !(part.is_empty() || part == ".")
}
