//! Laws of where identities are made and edited, each the contract of a function that does nothing.
ghost use Rattle.identity_runs.specs.HomeLaws.{HeadsDivergeInNoFolder, HeadsDivergeInNoHome};
ghost use Rattle.identity_runs.specs.HomeLaws.{IdentitiesAreEditedAtHome, IdentitiesHaveAHome};
ghost use Rattle.identity_runs.specs.HomeLaws.{MergesRefuseNoIdentity, PullsRefuseNoIdentity};
ghost use Rattle.identity_runs.specs.HomeLaws.{UnlikeSeedsMakeIdentitiesOnce};

/// Whatever is run over folders of which no two overlap, from no files at all, and wherever each
/// run stops, if each fetch and pull into one of them is from one of them: where each identity is
/// made once, and edited only in the folder where it was made, that folder is its home. Each head
/// of it that one of the folders has, or has last seen at a remote, is at or below the one that its
/// home has.
pub fn identities_have_a_home()
    ensures { IdentitiesHaveAHome }
{}

/// So of two heads of an identity, one is at or below the other: in the objects of its home, and in
/// those of each folder that has both, if no two texts of the folders have one name.
pub fn heads_of_an_identity_never_diverge()
    ensures home { HeadsDivergeInNoHome }
    ensures folder { HeadsDivergeInNoFolder }
{}

/// So after such runs no line of a merge, or of a pull from one of the folders, refuses an
/// identity. So it is also of a run that was stopped once it had printed its lines.
pub fn merges_refuse_no_identity()
    ensures merge { MergesRefuseNoIdentity }
    ensures pull { PullsRefuseNoIdentity }
{}

/// Each identity is made once, where the runs that make one have unlike seeds. Two identities could
/// share an id only if two texts that differ had one SHA-256, of those that the runs hash: the
/// first versions as they are written, and each seed with a zero byte.
pub fn identities_of_unlike_seeds_are_made_once()
    ensures { UnlikeSeedsMakeIdentitiesOnce }
{}

/// Each identity is edited only in the folder where it was made, where no run sets the user of a
/// folder to an identity that was not made there. So it is where no run asks for `user-set`.
pub fn identities_are_edited_at_home()
    ensures { IdentitiesAreEditedAtHome }
{}
