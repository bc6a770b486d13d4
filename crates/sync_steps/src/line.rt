//! The lines of an exchange, one for each entity.
ghost use Rattle.std.specs.Prelude.{◌≡◌};
ghost use Rattle.sync_steps.specs.Lines.{is_refused, refused_in};

use gb_text::{Id, Name};

/// What is done with each entity.
#[derive(Clone, Copy, Debug, PartialEq, Eq)]
pub enum Exchange {
    /// Commits of the peer come into the own folder.
    Fetch,
    /// Commits of the own folder go into the peer.
    Push,
}

/// The kind of an entity.
#[derive(Clone, Copy, Debug, PartialEq, Eq)]
pub enum EntityWord {
    Identity,
    Bug,
}

/// Why the closure of a head was not copied. Where several causes hold, any of them may be named.
#[derive(Clone, Copy, Debug, PartialEq, Eq)]
pub enum CopyCause {
    /// No file stands under this name in the source.
    Missing(Name),
    /// The file under this name in the source is no object text with that SHA-1.
    Damaged(Name),
    /// The object under this name is not of the kind by which it is named.
    WrongKind(Name),
    /// The limit plus one: of the bytes of an object file, of the commits or of the other objects that
    /// are copied, or of the trees below a commit's tree.
    TooLarge(u64),
    /// The commit lies below itself.
    Ring(Name),
    /// Other bytes stand under this name in the target.
    Taken(Name),
}

/// What an exchange did with an entity. A refusal is of this entity alone: no ref changed.
#[derive(Clone, Copy, Debug, PartialEq, Eq)]
pub enum Outcome {
    /// The tracking ref has the head that the peer's ref has.
    Fetched,
    /// The peer's ref has the head of the local ref.
    Pushed,
    /// Both refs had the same head before.
    Same,
    /// The peer's ref is no ref text.
    BadRef,
    /// The closure of the head was not copied.
    DamagedCopy(CopyCause),
    /// The peer's ref has this head, which is not below the local one.
    NotForward(Name),
    /// A bug was not pushed, since an identity is damaged.
    Held,
}

impl Outcome {
    /// Whether it is a refusal of the entity.
    pub fn is_refused(&self) -> bool
        ensures { result ≡ is_refused self.now }
    {
        match self {
            Outcome::Fetched | Outcome::Pushed | Outcome::Same => false,
            Outcome::BadRef | Outcome::DamagedCopy(_) | Outcome::NotForward(_) | Outcome::Held =>
                true,
        }
    }
}

/// What an exchange did with an entity, as it is printed.
#[derive(Clone, Copy, Debug, PartialEq, Eq)]
pub struct Line {
    pub verb: Exchange,
    pub word: EntityWord,
    pub id: Id,
    pub outcome: Outcome,
}

/// How many of the lines tell refusals.
pub fn count_refused(lines: &[Line]) -> u64
    ensures { result ≡ refused_in lines.now }
{
    lines
        .iter()
        .filter(|line| line.outcome.is_refused())
        .count() as u64
}
