//! What arguments ask, each read into its type.
ghost use Rattle.std.specs.Prelude.{◌≡◌, IfOk, OnErr, IsSome, None, map, string_bytes};
ghost use Rattle.gb_text.specs.Folder.{folder_of};
ghost use Rattle.words.specs.Words.{NamesCommand, asked_by, asked_of, by_verb, edited_comment, list_by_verb};
ghost use Rattle.words.specs.Words.{merge_by_verb, new_bug, of_bug, peer_by_verb, person};
ghost use Rattle.words.specs.declared.verb.Verb.TheVariants as verb;

use crate::arguments::read_arguments;
use crate::edit::Edit;
use crate::list::{BadQuery, Layout, ListRequest, list};
use crate::merge::merge;
use crate::pair::FolderPair;
use crate::peer::{fetch, pull, push};
use crate::verb::Verb;
use bug_edits::{BugEdit, EditName, read_edit};
use gb_text::{Folder, FolderFault, Line, Memory, Message, Text, Title};
use remote_name::RemoteName;
use std::alloc::Global;

/// A command, with its arguments.
#[derive(Drop)]
pub enum Command {
    /// The people of the folder.
    Users,
    /// The bug with this id.
    Show { bug: Text },
    /// The log of the bug with this id.
    Log { bug: Text },
    /// An edit of the folder.
    Edit(Edit),
    /// The loose refs of the folder come into its packed refs.
    PackRefs,
}

/// A command, and the folder that it is for.
#[derive(Drop)]
pub struct Request {
    pub folder: Folder,
    pub command: Command,
}

/// What is exchanged with a peer.
#[derive(Drop)]
pub enum PeerCommand {
    /// The commits of the peer come into the own folder, where its refs are kept under the name of
    /// a remote.
    Fetch { remote: RemoteName },
    /// The commits of the peer come into the own folder as by a fetch, and are then merged.
    Pull { remote: RemoteName },
    /// The commits of the own folder go into the peer.
    Push,
}

/// A command that exchanges commits, and the two folders that it is for.
#[derive(Drop)]
pub struct PeerRequest {
    pub pair: FolderPair,
    pub command: PeerCommand,
}

/// A merge, the folder that it is for, and the remote that it merges from.
#[derive(Drop)]
pub struct MergeRequest {
    pub folder: Folder,
    pub remote: RemoteName,
}

/// Why arguments alone refuse a command.
#[derive(Clone, Copy, Debug, PartialEq, Eq)]
pub enum BadWord {
    /// The first argument names no folder, or that of the peer names none.
    BadFolder,
    /// The argument at this place after the command's name, counted from 1, breaks its rule.
    BadText(u64),
    /// The folder and the peer overlap.
    SameFolder,
    /// The argument for a remote is not the name of one.
    BadRemoteName,
    /// The query of a list is refused.
    BadQuery(BadQuery),
}

/// What arguments ask.
#[derive(Drop)]
pub enum Asked {
    /// They give no command.
    Nothing,
    /// They give a command that they alone refuse.
    Refused(BadWord),
    /// They ask for this, in one folder.
    Request(Request),
    /// They ask for this, between two folders.
    Exchange(PeerRequest),
    /// They ask for a merge of what was fetched from a remote.
    Merge(MergeRequest),
    /// They ask for a list of bugs.
    List(ListRequest),
}

/// What arguments ask: a folder, the name of a command, and as many arguments as the command takes,
/// each read into its type. After the name the first `--` is dropped, and those after it are taken as
/// they are; one before it that begins with `-` and is longer gives no command. A bad folder is
/// refused first, and then the first argument that breaks its rule. Of a command with a peer, a bad
/// folder of the peer is refused next, then folders that overlap, and a remote that is no name last.
/// Of a merge, a remote that is no name is refused after a bad folder. The arguments of a list, any
/// number of them, are joined by one space into a query: a bad one is refused after a bad folder.
/// Memory runs out only if the name is that of a command, and perhaps before it is known that its
/// arguments give none.
pub fn read_words(alloc: Global, words: &[String]) -> Result<Asked, Memory>
    ensures read { IfOk result (λ asked. asked ≡ asked_of (map string_bytes words.now)) }
    ensures memory { OnErr result (NamesCommand (map string_bytes words.now)) }
{
    let [folder, name, rest @ ..] = words else {
        return Ok(Asked::Nothing);
    };
    let Some(verb) = Verb::read(name.as_str()) else {
        return Ok(Asked::Nothing);
    };
    let Some(arguments) = read_arguments(alloc, rest)? else {
        return Ok(Asked::Nothing);
    };
    asked_by_verb(alloc, folder.as_str(), verb, arguments.as_slice())
}

// What this command asks, of the word for its folder and of its arguments.
fn asked_by_verb(
    alloc: Global,
    folder: &str,
    verb: Verb,
    arguments: &[&str],
) -> Result<Asked, Memory>
    ensures { IfOk result (λ asked. asked
        ≡ asked_by (folder_of folder.now) (by_verb verb (map (λ s. s.now) arguments.now))
        (peer_by_verb verb (map (λ s. s.now) arguments.now))
        (merge_by_verb verb (map (λ s. s.now) arguments.now))
        (list_by_verb verb (map (λ s. s.now) arguments.now))) }
{
    match verb {
        Verb::Ls => list(alloc, folder, Layout::Lines, arguments),
        Verb::Board => list(alloc, folder, Layout::Board, arguments),
        Verb::Fetch => fetch(alloc, folder, arguments),
        Verb::Merge => merge(alloc, folder, arguments),
        Verb::Pull => pull(alloc, folder, arguments),
        Verb::Push => push(alloc, folder, arguments),
        _ => asked_in(alloc, folder, by_verb(alloc, verb, arguments)?),
    }
}

// A command in one folder that is no merge and no list, if there is one: a bad folder is refused
// before an argument.
fn asked_in(
    alloc: Global,
    folder: &str,
    command: Option<Result<Command, u64>>,
) -> Result<Asked, Memory>
    ensures { IfOk result (λ asked. asked ≡ asked_by (folder_of folder.now) command None None None) }
{
    let Some(command) = command else {
        return Ok(Asked::Nothing);
    };
    let Some(folder) = read_folder(alloc, folder)? else {
        return Ok(Asked::Refused(BadWord::BadFolder));
    };
    Ok(match command {
        Ok(command) => Asked::Request(Request { folder, command }),
        Err(place) => Asked::Refused(BadWord::BadText(place)),
    })
}

/// The folder that a word names, if it names one.
pub(crate) fn read_folder(alloc: Global, word: &str) -> Result<Option<Folder>, Memory>
    ensures { IfOk result (λ folder. folder ≡ folder_of word.now) }
{
    match Folder::read(alloc, word) {
        Ok(folder) => Ok(Some(folder)),
        Err(FolderFault::BadFolder) => Ok(None),
        Err(FolderFault::Memory) => Err(Memory),
    }
}

// A command; or the place of the first argument that breaks its rule; or none, where the arguments
// are not those of one in one folder.
type Reading = Result<Option<Result<Command, u64>>, Memory>;

// This command, with these arguments. A list, those with a peer, and a merge are none of these.
fn by_verb(alloc: Global, verb: Verb, arguments: &[&str]) -> Reading
    ensures read { IfOk result (λ read. read ≡ by_verb verb (map (λ s. s.now) arguments.now)) }
    ensures memory { OnErr result (IsSome (by_verb verb (map (λ s. s.now) arguments.now))) }
{
    match verb {
        Verb::UserNew => user_new(alloc, arguments),
        Verb::UserEdit => user_edit(alloc, arguments),
        Verb::UserSet => user_set(alloc, arguments),
        Verb::Users => Ok(users(arguments)),
        Verb::New => new(alloc, arguments),
        Verb::OfBug(name) => edit(alloc, name, arguments),
        Verb::Edit => edit_of_comment(alloc, arguments),
        Verb::Show => show(alloc, arguments),
        Verb::Log => log(alloc, arguments),
        Verb::PackRefs => Ok(pack_refs(arguments)),
        Verb::Ls | Verb::Board | Verb::Fetch | Verb::Merge | Verb::Pull | Verb::Push => Ok(None),
    }
}

// The list of people, which takes no argument.
fn users(arguments: &[&str]) -> Option<Result<Command, u64>>
    ensures { result ≡ by_verb verb.Users (map (λ s. s.now) arguments.now) }
{
    match arguments {
        [] => Some(Ok(Command::Users)),
        _ => None,
    }
}

// A pack of the refs, which takes no argument.
fn pack_refs(arguments: &[&str]) -> Option<Result<Command, u64>>
    ensures { result ≡ by_verb verb.PackRefs (map (λ s. s.now) arguments.now) }
{
    match arguments {
        [] => Some(Ok(Command::PackRefs)),
        _ => None,
    }
}

// A new person, of a name and an email.
fn user_new(alloc: Global, arguments: &[&str]) -> Reading
    ensures read { IfOk result (λ read. read
        ≡ by_verb verb.UserNew (map (λ s. s.now) arguments.now)) }
    ensures memory { OnErr result (IsSome (by_verb verb.UserNew (map (λ s. s.now) arguments.now))) }
{
    let [name, email] = arguments else {
        return Ok(None);
    };
    match person(alloc, name, email)? {
        Ok((name, email)) => Ok(Some(Ok(Command::Edit(Edit::UserNew { name, email })))),
        Err(place) => Ok(Some(Err(place))),
    }
}

// A new version of the user, with a name and an email.
fn user_edit(alloc: Global, arguments: &[&str]) -> Reading
    ensures read { IfOk result (λ read. read
        ≡ by_verb verb.UserEdit (map (λ s. s.now) arguments.now)) }
    ensures memory { OnErr result
        (IsSome (by_verb verb.UserEdit (map (λ s. s.now) arguments.now))) }
{
    let [name, email] = arguments else {
        return Ok(None);
    };
    match person(alloc, name, email)? {
        Ok((name, email)) => Ok(Some(Ok(Command::Edit(Edit::UserEdit { name, email })))),
        Err(place) => Ok(Some(Err(place))),
    }
}

// Another user.
fn user_set(alloc: Global, arguments: &[&str]) -> Reading
    ensures read { IfOk result (λ read. read
        ≡ by_verb verb.UserSet (map (λ s. s.now) arguments.now)) }
    ensures memory { OnErr result (IsSome (by_verb verb.UserSet (map (λ s. s.now) arguments.now))) }
{
    let [id] = arguments else {
        return Ok(None);
    };
    let id = Text::from_str(alloc, id)?;
    Ok(Some(Ok(Command::Edit(Edit::UserSet { id }))))
}

// A new bug with a title and a message.
fn new(alloc: Global, arguments: &[&str]) -> Reading
    ensures read { IfOk result (λ read. read ≡ by_verb verb.New (map (λ s. s.now) arguments.now)) }
    ensures memory { OnErr result (IsSome (by_verb verb.New (map (λ s. s.now) arguments.now))) }
{
    let [title, message] = arguments else {
        return Ok(None);
    };
    Ok(Some(new_bug(alloc, title, message)?))
}

// An edit of the bug that the first argument finds.
fn edit(alloc: Global, name: EditName, arguments: &[&str]) -> Reading
    ensures read { IfOk result (λ read. read
        ≡ by_verb (verb.OfBug name) (map (λ s. s.now) arguments.now)) }
    ensures memory { OnErr result
        (IsSome (by_verb (verb.OfBug name) (map (λ s. s.now) arguments.now))) }
{
    let [bug, arguments @ ..] = arguments else {
        return Ok(None);
    };
    match read_edit(alloc, name, arguments)? {
        Some(Ok(edit)) => Ok(Some(Ok(of_bug(alloc, bug, edit)?))),
        Some(Err(place)) => Ok(Some(Err(place))),
        None => Ok(None),
    }
}

// Another message of the comment that the first argument finds.
fn edit_of_comment(alloc: Global, arguments: &[&str]) -> Reading
    ensures read { IfOk result (λ read. read
        ≡ by_verb verb.Edit (map (λ s. s.now) arguments.now)) }
    ensures memory { OnErr result (IsSome (by_verb verb.Edit (map (λ s. s.now) arguments.now))) }
{
    let [comment, message] = arguments else {
        return Ok(None);
    };
    Ok(Some(edited_comment(alloc, comment, message)?))
}

// A bug as text.
fn show(alloc: Global, arguments: &[&str]) -> Reading
    ensures read { IfOk result (λ read. read ≡ by_verb verb.Show (map (λ s. s.now) arguments.now)) }
    ensures memory { OnErr result (IsSome (by_verb verb.Show (map (λ s. s.now) arguments.now))) }
{
    let [bug] = arguments else {
        return Ok(None);
    };
    let bug = Text::from_str(alloc, bug)?;
    Ok(Some(Ok(Command::Show { bug })))
}

// The log of a bug.
fn log(alloc: Global, arguments: &[&str]) -> Reading
    ensures read { IfOk result (λ read. read ≡ by_verb verb.Log (map (λ s. s.now) arguments.now)) }
    ensures memory { OnErr result (IsSome (by_verb verb.Log (map (λ s. s.now) arguments.now))) }
{
    let [bug] = arguments else {
        return Ok(None);
    };
    let bug = Text::from_str(alloc, bug)?;
    Ok(Some(Ok(Command::Log { bug })))
}

// An edit of the bug that an argument finds.
fn of_bug(alloc: Global, bug: &str, edit: BugEdit) -> Result<Command, Memory>
    ensures { IfOk result (λ command. command ≡ of_bug bug.now edit) }
{
    Ok(Command::Edit(Edit::OfBug {
        bug: Text::from_str(alloc, bug)?,
        edit,
    }))
}

// A person's name and email, or the place of the first of them that breaks its rule.
fn person(alloc: Global, name: &str, email: &str) -> Result<Result<(Title, Line), u64>, Memory>
    ensures { IfOk result (λ read. read ≡ person name.now email.now) }
{
    let name = Title::read(alloc, name)?;
    let email = Line::read(alloc, email)?;
    Ok(match (name, email) {
        (Some(name), Some(email)) => Ok((name, email)),
        (None, _) => Err(1),
        (_, None) => Err(2),
    })
}

// A new bug with this title and this message.
fn new_bug(alloc: Global, title: &str, message: &str) -> Result<Result<Command, u64>, Memory>
    ensures { IfOk result (λ read. read ≡ new_bug title.now message.now) }
{
    let title = Title::read(alloc, title)?;
    let message = Message::read(alloc, message)?;
    Ok(match (title, message) {
        (Some(title), Some(message)) => Ok(Command::Edit(Edit::New { title, message })),
        (None, _) => Err(1),
        (_, None) => Err(2),
    })
}

// Another message of the comment that an argument finds.
fn edited_comment(
    alloc: Global,
    comment: &str,
    message: &str,
) -> Result<Result<Command, u64>, Memory>
    ensures { IfOk result (λ read. read ≡ edited_comment comment.now message.now) }
{
    let Some(message) = Message::read(alloc, message)? else {
        return Ok(Err(2));
    };
    let comment = Text::from_str(alloc, comment)?;
    Ok(Ok(Command::Edit(Edit::OfComment { comment, message })))
}
