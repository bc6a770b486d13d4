//! Laws of the identities that full exchanges leave, each the contract of a function that does
//! nothing.
ghost use Rattle.identity_runs.specs.ExchangeLaws.{ExchangedFoldersHaveOneDigest};
ghost use Rattle.identity_runs.specs.ExchangeLaws.{ExchangesLeaveTheSameHeads};
ghost use Rattle.identity_runs.specs.ExchangeLaws.{ExchangesLeaveTheSameNames};

/// Whatever is run over the folders of a world, from no files at all, if each identity is made
/// once, and edited only in the folder where it was made: after a full exchange in which each pull
/// is done, any two folders have the same identities, each with the same head. So both have the
/// same name for the author of each operation. No two texts of the folders may have one name.
pub fn exchanges_leave_the_same_people()
    ensures heads { ExchangesLeaveTheSameHeads }
    ensures names { ExchangesLeaveTheSameNames }
{}

/// So the digests of any two folders are the same.
pub fn exchanged_folders_show_the_same()
    ensures { ExchangedFoldersHaveOneDigest }
{}
