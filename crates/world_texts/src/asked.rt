//! What the arguments ask for.
ghost use Rattle.std.specs.Prelude.{◌≡◌, IfSome, map, string_bytes};
ghost use Rattle.world_texts.specs.Asked.{asked_of, bounded, IsAskedBy};

use gb_text::read_decimal;

/// What is printed where the arguments are not three numbers in their bounds.
pub const USAGE: &str = "usage: gb_world NUMBER FOLDERS EVENTS\n";

/// The fewest folders of a world.
const LEAST_FOLDERS: u64 = 2;

/// The most folders of a world.
const MOST_FOLDERS: u64 = 16;

/// The most events of a world.
const MOST_EVENTS: u64 = 100_000;

/// A world: the number that it is made from, how many folders it has, and how many events.
#[derive(Clone, Copy, Debug, PartialEq, Eq)]
pub struct Asked {
    pub number: u64,
    pub folders: u32,
    pub events: u32,
}

/// The world that arguments ask for: three plain decimals, a number below 2^64, 2 to 16 folders,
/// and from as many events as folders to 100,000.
#[tactic(auto, using(crate::proofs::AskedLemmas::asked_of_is))]
pub fn read_asked(words: &[String]) -> Option<Asked>
    ensures exact { result ≡ asked_of (map string_bytes words.now) }
    ensures found { IfSome result (IsAskedBy (map string_bytes words.now)) }
{
    let [number, folders, events] = words else {
        return None;
    };
    let number = read_decimal(number.as_str().as_bytes())?;
    let folders = read_decimal(folders.as_str().as_bytes())?;
    let events = read_decimal(events.as_str().as_bytes())?;
    in_bounds(number, folders, events)
}

// The world with these numbers, if they are in their bounds.
fn in_bounds(number: u64, folders: u64, events: u64) -> Option<Asked>
    ensures { result ≡ bounded number folders events }
{
    if folders < LEAST_FOLDERS || folders > MOST_FOLDERS {
        return None;
    }
    if events < folders || events > MOST_EVENTS {
        return None;
    }
    Some(Asked {
        number,
        folders: folders as u32,
        events: events as u32,
    })
}
