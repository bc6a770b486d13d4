//! Laws of what arguments ask, each the contract of a function that does nothing.
ghost use Rattle.std.specs.Prelude.{◌≡◌, ◌↔◌, ◌∷◌, ◌++◌, [], ℕ, List, IsSome, Option, Some, None, Ok, Err, codes, length, map, false, true};
ghost use Rattle.std.specs.List.{AllByRecursion};
ghost use Rattle.gb_text.specs.Folder.{folder_of};
ghost use Rattle.gb_text.specs.Overlap.{Overlap};
ghost use Rattle.gb_text.specs.declared.ruled.Line.{Line as LineValue};
ghost use Rattle.gb_text.specs.declared.ruled.Message.{Message as MessageValue};
ghost use Rattle.gb_text.specs.declared.ruled.Title.{Title as TitleValue};
ghost use Rattle.bug_ops.specs.declared.op.BugStatus.TheVariants.{Closed, Opened};
ghost use Rattle.bug_edits.specs.EditTable.{name_of as name_of_edit, row_of};
ghost use Rattle.bug_edits.specs.EditWords.{IsFirstBad, all_keep, is_message_word, is_title_word};
ghost use Rattle.bug_edits.specs.Given.{HasTitles, given_texts};
ghost use Rattle.bug_edits.specs.declared.edit.BugEdit.{BugEdit as BugEditValue};
ghost use Rattle.bug_edits.specs.declared.edit.BugEdit.TheVariants as bug_edit;
ghost use Rattle.query.specs.Reading.{no_words, query_of};
ghost use Rattle.query.specs.declared.fault.QueryFault.TheVariants as query_fault;
ghost use Rattle.query.specs.declared.query.Query.{Query as QueryValue};
ghost use Rattle.remote_name.specs.RemoteTexts.{is_remote_name};
ghost use Rattle.remote_name.specs.declared.remote.RemoteName.{RemoteName as RemoteNameValue};
ghost use Rattle.words.specs.Arguments.{IsFlag, IsPlain, Shape, arguments_of};
ghost use Rattle.words.specs.Overlaps.{overlaps};
ghost use Rattle.words.specs.Pairs.{pair_of};
ghost use Rattle.words.specs.Verbs.{name_of, verb_of};
ghost use Rattle.words.specs.WordRules.{IsCounted, IsCountedMerge, IsCountedPeer, IsRead, NamesList, words_keep};
ghost use Rattle.words.specs.Words.{NamesCommand, asked_of, command_of, list_command_of, merge_command_of, of_bug, peer_command_of, spaced};
ghost use Rattle.words.specs.declared.edit.Edit.TheVariants as edits;
ghost use Rattle.words.specs.declared.list.BadQuery.{BadQuery as BadQueryValue};
ghost use Rattle.words.specs.declared.list.BadQuery.TheVariants as bad_query;
ghost use Rattle.words.specs.declared.list.Layout.{Layout as LayoutValue};
ghost use Rattle.words.specs.declared.list.Layout.TheVariants.{Board, Lines};
ghost use Rattle.words.specs.declared.pair.FolderPair.{FolderPair as FolderPairValue};
ghost use Rattle.words.specs.declared.verb.Verb.{Verb as VerbValue};
ghost use Rattle.words.specs.declared.words.Asked.TheVariants as asked;
ghost use Rattle.words.specs.declared.words.BadWord.TheVariants.{BadFolder, BadQuery, BadRemoteName, BadText, SameFolder};
ghost use Rattle.words.specs.declared.words.Command.{Command as CommandValue};
ghost use Rattle.words.specs.declared.words.Command.TheVariants as ask;
ghost use Rattle.words.specs.declared.words.PeerCommand.{PeerCommand as PeerCommandValue};
ghost use Rattle.words.specs.declared.words.PeerCommand.TheVariants as peer_ask;

/// The commands by their names and their numbers of arguments, those with a peer apart, and the
/// merge, and the lists, which take any number of them. No other arguments give a command.
pub fn only_these_are_commands()
    ensures named { (name : List ℕ) (arguments : List (List ℕ))
        → IsSome (command_of name arguments) → IsCounted name (length arguments) }
    ensures each { (name : List ℕ) (arguments : List (List ℕ))
        → IsCounted name (length arguments) → IsSome (command_of name arguments) }
    ensures peers_named { (name : List ℕ) (arguments : List (List ℕ))
        → IsSome (peer_command_of name arguments) → IsCountedPeer name (length arguments) }
    ensures peers_each { (name : List ℕ) (arguments : List (List ℕ))
        → IsCountedPeer name (length arguments) → IsSome (peer_command_of name arguments) }
    ensures merges_named { (name : List ℕ) (arguments : List (List ℕ))
        → IsSome (merge_command_of name arguments) → IsCountedMerge name (length arguments) }
    ensures merges_each { (name : List ℕ) (arguments : List (List ℕ))
        → IsCountedMerge name (length arguments) → IsSome (merge_command_of name arguments) }
    ensures lists_named { (name : List ℕ) (arguments : List (List ℕ))
        → IsSome (list_command_of name arguments) → NamesList name }
    ensures lists_each { (name : List ℕ) (arguments : List (List ℕ))
        → NamesList name → IsSome (list_command_of name arguments) }
    ensures unnamed { (folder : List ℕ)
        → (asked_of [] ≡ asked.Nothing) × (asked_of (folder ∷ []) ≡ asked.Nothing) }
{}

/// The name of a command with a peer is that of no command in one folder, the name of a merge is
/// that of neither, and the name of a list is that of none of these, whatever the arguments.
pub fn no_name_is_of_two_kinds()
    ensures peers { (name : List ℕ) (arguments others : List (List ℕ))
        → IsSome (command_of name arguments) → IsSome (peer_command_of name others) → ⊥ }
    ensures merges { (name : List ℕ) (arguments others : List (List ℕ))
        → IsSome (command_of name arguments) → IsSome (merge_command_of name others) → ⊥ }
    ensures peer_merges { (name : List ℕ) (arguments others : List (List ℕ))
        → IsSome (peer_command_of name arguments) → IsSome (merge_command_of name others) → ⊥ }
    ensures lists { (name : List ℕ) (arguments others : List (List ℕ))
        → IsSome (command_of name arguments) → IsSome (list_command_of name others) → ⊥ }
    ensures peer_lists { (name : List ℕ) (arguments others : List (List ℕ))
        → IsSome (peer_command_of name arguments) → IsSome (list_command_of name others) → ⊥ }
    ensures merge_lists { (name : List ℕ) (arguments others : List (List ℕ))
        → IsSome (merge_command_of name arguments) → IsSome (list_command_of name others) → ⊥ }
{}

/// Arguments that do not begin with `-`, and `-` alone, are taken as they are. The first `--` is dropped,
/// and those after it are taken as they are. If one that begins with `-` and is longer comes first, none
/// is taken. All arguments are of one of these three shapes.
pub fn only_these_arguments_are_taken()
    ensures plain { (given : List (List ℕ)) → AllByRecursion IsPlain given
        → arguments_of given ≡ Some given }
    ensures separated { (before after : List (List ℕ)) → AllByRecursion IsPlain before
        → arguments_of (before ++ codes "--" ∷ after) ≡ Some (before ++ after) }
    ensures refused { (before after : List (List ℕ)) (flag : List ℕ)
        → AllByRecursion IsPlain before → IsFlag flag
        → arguments_of (before ++ flag ∷ after) ≡ None }
    ensures each { (given : List (List ℕ)) → Shape given }
{}

/// The name of a command is read as that command, and no other text is. Arguments name a command if and
/// only if the second of them is such a name.
pub fn names_are_those_of_verbs()
    ensures read { (verb : VerbValue) → verb_of (name_of verb) ≡ Some verb }
    ensures only { (name : List ℕ) (verb : VerbValue)
        → verb_of name ≡ Some verb → name ≡ name_of verb }
    ensures named { (words : List (List ℕ)) → NamesCommand words → (folder : List ℕ)
        × (rest : List (List ℕ)) × (verb : VerbValue)
        × (words ≡ folder ∷ name_of verb ∷ rest) }
    ensures each { (folder : List ℕ) (rest : List (List ℕ)) (verb : VerbValue)
        → NamesCommand (folder ∷ name_of verb ∷ rest) }
{}

/// What each command asks for, by its name and its arguments.
pub fn commands_ask_for_what_they_name()
    ensures users { command_of (codes "users") [] ≡ Some (Ok ask.Users) }
    ensures pack_refs { command_of (codes "pack-refs") [] ≡ Some (Ok ask.PackRefs) }
    ensures log { (bug : List ℕ) → command_of (codes "log") (bug ∷ [])
        ≡ Some (Ok (ask.Log bug)) }
    ensures show { (bug : List ℕ) → command_of (codes "show") (bug ∷ [])
        ≡ Some (Ok (ask.Show bug)) }
    ensures user_set { (id : List ℕ) → command_of (codes "user-set") (id ∷ [])
        ≡ Some (Ok (ask.Edit (edits.UserSet id))) }
    ensures user_new { (name : TitleValue) (email : LineValue)
        → command_of (codes "user-new") (name.text ∷ email.text ∷ [])
        ≡ Some (Ok (ask.Edit (edits.UserNew name email))) }
    ensures user_edit { (name : TitleValue) (email : LineValue)
        → command_of (codes "user-edit") (name.text ∷ email.text ∷ [])
        ≡ Some (Ok (ask.Edit (edits.UserEdit name email))) }
    ensures new { (title : TitleValue) (message : MessageValue)
        → command_of (codes "new") (title.text ∷ message.text ∷ [])
        ≡ Some (Ok (ask.Edit (edits.New title message))) }
{}

/// What each command with a peer asks for, and a merge. The last argument of one with a peer is the
/// peer, which is known even where the remote is no name. A merge has the remote alone.
pub fn peer_commands_ask_for_what_they_name()
    ensures fetch { (remote : RemoteNameValue) (peer : List ℕ)
        → peer_command_of (codes "fetch") (remote.text ∷ peer ∷ [])
        ≡ Some (peer, Some (peer_ask.Fetch remote)) }
    ensures unnamed { (remote peer : List ℕ) → is_remote_name remote ≡ false
        → peer_command_of (codes "fetch") (remote ∷ peer ∷ []) ≡ Some (peer, None) }
    ensures push { (peer : List ℕ)
        → peer_command_of (codes "push") (peer ∷ []) ≡ Some (peer, Some peer_ask.Push) }
    ensures pull { (remote : RemoteNameValue) (peer : List ℕ)
        → peer_command_of (codes "pull") (remote.text ∷ peer ∷ [])
        ≡ Some (peer, Some (peer_ask.Pull remote)) }
    ensures pull_unnamed { (remote peer : List ℕ) → is_remote_name remote ≡ false
        → peer_command_of (codes "pull") (remote ∷ peer ∷ []) ≡ Some (peer, None) }
    ensures merge { (remote : RemoteNameValue)
        → merge_command_of (codes "merge") (remote.text ∷ []) ≡ Some (Some remote) }
    ensures merge_unnamed { (remote : List ℕ) → is_remote_name remote ≡ false
        → merge_command_of (codes "merge") (remote ∷ []) ≡ Some None }
{}

/// What a list asks for, which is its layout and the query that its arguments read as, joined by one
/// space. Without arguments it is the query of no words. Of a bad query the fault is known, and its
/// place in that text.
pub fn lists_ask_for_what_they_name()
    ensures lines { (arguments : List (List ℕ)) (query : QueryValue)
        → query_of (spaced arguments) ≡ Ok query
        → list_command_of (codes "ls") arguments ≡ Some (Lines, Ok query) }
    ensures board { (arguments : List (List ℕ)) (query : QueryValue)
        → query_of (spaced arguments) ≡ Ok query
        → list_command_of (codes "board") arguments ≡ Some (Board, Ok query) }
    ensures alone { (list_command_of (codes "ls") [] ≡ Some (Lines, Ok no_words))
        × (list_command_of (codes "board") [] ≡ Some (Board, Ok no_words)) }
    ensures unknown_field { (arguments : List (List ℕ)) (place : ℕ)
        → query_of (spaced arguments) ≡ Err (query_fault.UnknownField place)
        → (list_command_of (codes "ls") arguments
        ≡ Some (Lines, Err (bad_query.UnknownField place)))
        × (list_command_of (codes "board") arguments
        ≡ Some (Board, Err (bad_query.UnknownField place))) }
    ensures bad_value { (arguments : List (List ℕ)) (place : ℕ)
        → query_of (spaced arguments) ≡ Err (query_fault.BadValue place)
        → (list_command_of (codes "ls") arguments
        ≡ Some (Lines, Err (bad_query.BadValue place)))
        × (list_command_of (codes "board") arguments
        ≡ Some (Board, Err (bad_query.BadValue place))) }
    ensures open_quote { (arguments : List (List ℕ)) (place : ℕ)
        → query_of (spaced arguments) ≡ Err (query_fault.OpenQuote place)
        → (list_command_of (codes "ls") arguments
        ≡ Some (Lines, Err (bad_query.OpenQuote place)))
        × (list_command_of (codes "board") arguments
        ≡ Some (Board, Err (bad_query.OpenQuote place))) }
    ensures one { (argument : List ℕ) → spaced (argument ∷ []) ≡ argument }
    ensures more { (argument next : List ℕ) (others : List (List ℕ))
        → spaced (argument ∷ next ∷ others)
        ≡ argument ++ codes " " ++ spaced (next ∷ others) }
{}

/// What each edit of a bug asks for: the first argument finds the bug, or the comment.
pub fn edits_of_bugs_ask_for_what_they_name()
    ensures each { (bug : List ℕ) (edit : BugEditValue) → HasTitles (row_of edit).words
        → command_of (name_of_edit (row_of edit).name) (bug ∷ given_texts (row_of edit).words)
        ≡ Some (Ok (of_bug bug edit)) }
    ensures noop { (bug : List ℕ) → command_of (codes "noop") (bug ∷ [])
        ≡ Some (Ok (of_bug bug bug_edit.Noop)) }
    ensures close { (bug : List ℕ) → command_of (codes "close") (bug ∷ [])
        ≡ Some (Ok (of_bug bug (bug_edit.Status Closed))) }
    ensures open { (bug : List ℕ) → command_of (codes "open") (bug ∷ [])
        ≡ Some (Ok (of_bug bug (bug_edit.Status Opened))) }
    ensures comment { (bug : List ℕ) (message : MessageValue)
        → command_of (codes "comment") (bug ∷ message.text ∷ [])
        ≡ Some (Ok (of_bug bug (bug_edit.Comment message))) }
    ensures title { (bug : List ℕ) (title : TitleValue)
        → command_of (codes "title") (bug ∷ title.text ∷ [])
        ≡ Some (Ok (of_bug bug (bug_edit.Title title))) }
    ensures meta { (bug : List ℕ) (key : TitleValue) (value : MessageValue)
        → command_of (codes "meta") (bug ∷ key.text ∷ value.text ∷ [])
        ≡ Some (Ok (of_bug bug (bug_edit.Metadata key value))) }
    ensures label_add { (bug : List ℕ) (label : TitleValue) (more : List TitleValue)
        → command_of (codes "label-add")
        (bug ∷ label.text ∷ map (λ (other : TitleValue). other.text) more)
        ≡ Some (Ok (of_bug bug (bug_edit.AddLabels (label ∷ more)))) }
    ensures label_rm { (bug : List ℕ) (label : TitleValue) (more : List TitleValue)
        → command_of (codes "label-rm")
        (bug ∷ label.text ∷ map (λ (other : TitleValue). other.text) more)
        ≡ Some (Ok (of_bug bug (bug_edit.RemoveLabels (label ∷ more)))) }
    ensures edit { (comment : List ℕ) (message : MessageValue)
        → command_of (codes "edit") (comment ∷ message.text ∷ [])
        ≡ Some (Ok (ask.Edit (edits.OfComment comment message))) }
{}

/// Arguments that give no command ask nothing, whatever the folder: one of them is refused, or those
/// that are taken are not a command's. Of a command in one folder that is no merge and no list a bad
/// folder is refused first, whatever its arguments. Otherwise the place of an argument that breaks its
/// rule is reported, among those that are taken. Otherwise the command is asked for, in that folder.
pub fn requests_are_read_in_order()
    ensures refused { (folder name : List ℕ) (rest : List (List ℕ))
        → arguments_of rest ≡ None → asked_of (folder ∷ name ∷ rest) ≡ asked.Nothing }
    ensures nothing { (folder name : List ℕ) (rest arguments : List (List ℕ))
        → arguments_of rest ≡ Some arguments → command_of name arguments ≡ None
        → peer_command_of name arguments ≡ None → merge_command_of name arguments ≡ None
        → list_command_of name arguments ≡ None
        → asked_of (folder ∷ name ∷ rest) ≡ asked.Nothing }
    ensures folder { (folder name : List ℕ) (rest arguments : List (List ℕ))
        → arguments_of rest ≡ Some arguments
        → IsSome (command_of name arguments) → folder_of folder ≡ None
        → asked_of (folder ∷ name ∷ rest) ≡ asked.Refused BadFolder }
    ensures place { (folder name : List ℕ) (rest arguments : List (List ℕ)) (read : List ℕ)
        (place : ℕ) → arguments_of rest ≡ Some arguments
        → folder_of folder ≡ Some read → command_of name arguments ≡ Some (Err place)
        → asked_of (folder ∷ name ∷ rest) ≡ asked.Refused (BadText place) }
    ensures request { (folder name : List ℕ) (rest arguments : List (List ℕ)) (read : List ℕ)
        (command : CommandValue) → arguments_of rest ≡ Some arguments
        → folder_of folder ≡ Some read → command_of name arguments ≡ Some (Ok command)
        → asked_of (folder ∷ name ∷ rest)
        ≡ asked.Request (record { folder = read; command = command }) }
{}

/// Of a command with a peer a bad own folder is refused first, whatever its arguments, and then a bad
/// folder of the peer. Otherwise folders that overlap are refused, whatever the remote, and then a
/// remote that is no name. Otherwise the command is asked for, between the two folders.
pub fn exchanges_are_read_in_order()
    ensures own { (folder name : List ℕ) (rest arguments : List (List ℕ))
        → arguments_of rest ≡ Some arguments
        → IsSome (peer_command_of name arguments) → folder_of folder ≡ None
        → asked_of (folder ∷ name ∷ rest) ≡ asked.Refused BadFolder }
    ensures peer { (folder name word : List ℕ) (rest arguments : List (List ℕ))
        (command : Option PeerCommandValue) → arguments_of rest ≡ Some arguments
        → peer_command_of name arguments ≡ Some (word, command) → folder_of word ≡ None
        → asked_of (folder ∷ name ∷ rest) ≡ asked.Refused BadFolder }
    ensures overlap { (folder name word own peer : List ℕ) (rest arguments : List (List ℕ))
        (command : Option PeerCommandValue) → arguments_of rest ≡ Some arguments
        → peer_command_of name arguments ≡ Some (word, command)
        → folder_of folder ≡ Some own → folder_of word ≡ Some peer → Overlap own peer
        → asked_of (folder ∷ name ∷ rest) ≡ asked.Refused SameFolder }
    ensures remote { (folder name word own peer : List ℕ) (rest arguments : List (List ℕ))
        → arguments_of rest ≡ Some arguments
        → peer_command_of name arguments ≡ Some (word, None)
        → folder_of folder ≡ Some own → folder_of word ≡ Some peer → (Overlap own peer → ⊥)
        → asked_of (folder ∷ name ∷ rest) ≡ asked.Refused BadRemoteName }
    ensures exchange { (folder name word : List ℕ) (rest arguments : List (List ℕ))
        (pair : FolderPairValue) (command : PeerCommandValue)
        → arguments_of rest ≡ Some arguments
        → peer_command_of name arguments ≡ Some (word, Some command)
        → folder_of folder ≡ Some pair.own → folder_of word ≡ Some pair.peer
        → asked_of (folder ∷ name ∷ rest)
        ≡ asked.Exchange (record { pair = pair; command = command }) }
{}

/// Of a merge a bad folder is refused first, whatever its argument. Otherwise a remote that is no
/// name is refused. Otherwise the merge is asked for, in that folder and of that remote.
pub fn merges_are_read_in_order()
    ensures folder { (folder name : List ℕ) (rest arguments : List (List ℕ))
        → arguments_of rest ≡ Some arguments
        → IsSome (merge_command_of name arguments) → folder_of folder ≡ None
        → asked_of (folder ∷ name ∷ rest) ≡ asked.Refused BadFolder }
    ensures remote { (folder name : List ℕ) (rest arguments : List (List ℕ)) (read : List ℕ)
        → arguments_of rest ≡ Some arguments
        → folder_of folder ≡ Some read → merge_command_of name arguments ≡ Some None
        → asked_of (folder ∷ name ∷ rest) ≡ asked.Refused BadRemoteName }
    ensures merge { (folder name : List ℕ) (rest arguments : List (List ℕ)) (read : List ℕ)
        (remote : RemoteNameValue) → arguments_of rest ≡ Some arguments
        → folder_of folder ≡ Some read → merge_command_of name arguments ≡ Some (Some remote)
        → asked_of (folder ∷ name ∷ rest)
        ≡ asked.Merge (record { folder = read; remote = remote }) }
{}

/// Of a list a bad folder is refused first, whatever its arguments. Otherwise a bad query is refused.
/// Otherwise the list is asked for, in that folder, in its layout and of that query.
pub fn lists_are_read_in_order()
    ensures folder { (folder name : List ℕ) (rest arguments : List (List ℕ))
        → arguments_of rest ≡ Some arguments
        → IsSome (list_command_of name arguments) → folder_of folder ≡ None
        → asked_of (folder ∷ name ∷ rest) ≡ asked.Refused BadFolder }
    ensures query { (folder name : List ℕ) (rest arguments : List (List ℕ)) (read : List ℕ)
        (layout : LayoutValue) (bad : BadQueryValue) → arguments_of rest ≡ Some arguments
        → folder_of folder ≡ Some read → list_command_of name arguments ≡ Some (layout, Err bad)
        → asked_of (folder ∷ name ∷ rest) ≡ asked.Refused (BadQuery bad) }
    ensures list { (folder name : List ℕ) (rest arguments : List (List ℕ)) (read : List ℕ)
        (layout : LayoutValue) (query : QueryValue) → arguments_of rest ≡ Some arguments
        → folder_of folder ≡ Some read → list_command_of name arguments ≡ Some (layout, Ok query)
        → asked_of (folder ∷ name ∷ rest)
        ≡ asked.List (record { folder = read; layout = layout; query = query }) }
{}

/// Two folders make a pair if and only if they do not overlap. The pair has these two, in this order,
/// and is the only one that has them.
pub fn pairs_are_of_folders_apart()
    ensures apart { (one two : List ℕ) → (overlaps one two ≡ true) ↔ Overlap one two }
    ensures folders { (own peer : List ℕ) (pair : FolderPairValue) → pair_of own peer ≡ Some pair
        → (pair.own ≡ own) × (pair.peer ≡ peer) }
    ensures none { (own peer : List ℕ) → (pair_of own peer ≡ None) ↔ Overlap own peer }
    ensures read { (pair : FolderPairValue) → pair_of pair.own pair.peer ≡ Some pair }
{}

/// A command is refused with the place of the first argument that breaks its rule, counted from 1.
/// A comment, what it is edited to, what begins a bug, and a value under a key may be any message, of
/// several lines too.
pub fn first_bad_words_are_told()
    ensures first { (name : List ℕ) (arguments : List (List ℕ)) (place : ℕ)
        → command_of name arguments ≡ Some (Err place)
        → IsFirstBad (words_keep name arguments) place }
    ensures none { (name : List ℕ) (arguments : List (List ℕ)) (command : CommandValue)
        → command_of name arguments ≡ Some (Ok command)
        → all_keep (words_keep name arguments) ≡ true }
    ensures messages { (bug title message : List ℕ) → is_title_word title ≡ true
        → is_message_word message ≡ true
        → IsRead (command_of (codes "comment") (bug ∷ message ∷ []))
        × IsRead (command_of (codes "edit") (bug ∷ message ∷ []))
        × IsRead (command_of (codes "new") (title ∷ message ∷ []))
        × IsRead (command_of (codes "meta") (bug ∷ title ∷ message ∷ [])) }
{}
