//! Laws of full exchanges among the folders of a world, each the contract of a function that does
//! nothing.
ghost use Rattle.clean_folders.specs.ExchangeLaws.{CleanFoldersHaveOneDigest};
ghost use Rattle.clean_folders.specs.ExchangeLaws.{CleanFoldersHaveTheSame};
ghost use Rattle.clean_folders.specs.ExchangeLaws.{CleanWorldsHaveOneDigest};
ghost use Rattle.clean_folders.specs.ExchangeLaws.{CleanWorldsHaveTheSame, EventsAreOnePull};
ghost use Rattle.clean_folders.specs.ExchangeLaws.{ExchangesOfCleanFoldersAreDone};
ghost use Rattle.clean_folders.specs.ExchangeLaws.{ExchangesOfCleanWorldsAreDone};
ghost use Rattle.clean_folders.specs.ExchangeLaws.{ToldWorldsAreEqual};

/// An event is one pull at most, at one time.
pub fn events_are_one_pull()
    ensures { EventsAreOnePull }
{}

/// The folders of a world are clean, each has a user, and each identity was made once and edited
/// only in the folder where it was made. Then each pull of a full exchange among them is done, if
/// no line of its merge tells a limit, and no two texts have one SHA-1 of those that it may name.
/// Nor may the folders have two texts under one name at the end.
pub fn full_exchanges_of_clean_folders_are_done()
    ensures { ExchangesOfCleanFoldersAreDone }
{}

/// So any two of the folders have the same bugs then, and the same operation commits of each, and
/// their digests are the same.
pub fn clean_folders_agree_after_a_full_exchange()
    ensures same { CleanFoldersHaveTheSame }
    ensures digest { CleanFoldersHaveOneDigest }
{}

/// In a clean world whose identities are made with distinct seeds, and whose folders all have a
/// user, each pull of a full exchange that meets no limit is done. Afterwards any two folders have
/// the same bugs, and the same operation commits of each, and their digests are the same. Two texts
/// that differ may have no one hash, as the definitions say.
pub fn clean_worlds_agree_after_a_full_exchange()
    ensures done { ExchangesOfCleanWorldsAreDone }
    ensures same { CleanWorldsHaveTheSame }
    ensures digest { CleanWorldsHaveOneDigest }
{}

/// So the last line of the text of the world that three numbers in their bounds ask for is `equal`,
/// if each of its folders has a user before the full exchange, no pull of the exchange meets a
/// limit, and no two texts that differ have one hash.
pub fn told_worlds_are_equal_unless_a_limit_is_met()
    ensures { ToldWorldsAreEqual }
{}
