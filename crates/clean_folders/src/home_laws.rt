//! Laws of the identities of clean worlds, each the contract of a function that does nothing.
ghost use Rattle.clean_folders.specs.HomeLaws.{CleanPeopleHaveHomes, NewUsersAloneMakeIdentities};
ghost use Rattle.clean_folders.specs.HomeLaws.{ToldWorldsHaveCleanPeople};

/// The events that make identities are those that run `user-new`.
pub fn new_users_alone_make_identities()
    ensures { NewUsersAloneMakeIdentities }
{}

/// The folders of a clean world are clean after runs that make each identity once, and that edit
/// one only in the folder where it was made. This needs that no two events that make an identity
/// have one seed, and that no two texts that differ have one SHA-256, of those that the events hash
/// for the identities that they make. These are the first versions as they are written, and each
/// seed with a zero byte. No event of a world edits an identity.
pub fn people_of_clean_worlds_have_homes()
    ensures { CleanPeopleHaveHomes }
{}

/// The world that three numbers in their bounds ask for is such a world before its full exchange,
/// unless two texts that differ have one SHA-256: two from which the seeds are made, or two that
/// its events hash for the operations that they make, or two that they hash for the identities.
pub fn told_worlds_have_clean_people()
    ensures { ToldWorldsHaveCleanPeople }
{}
