//! The law of when a user is full, the contract of a function that does nothing.
ghost use Rattle.std.specs.Prelude.{◌≡◌, ◌+◌, ◌^◌, ◌⊎◌, length, ℕ};
ghost use Rattle.gb_store.specs.Files.{History, files_of};
ghost use Rattle.repo_steps.specs.declared.env.Env.{Env as EnvValue};
ghost use Rattle.repo_steps.specs.declared.refusal.Refusal.TheVariants as refusal;
ghost use Rattle.repo_steps.specs.Doings.{Refused};
ghost use Rattle.repo_steps.specs.PeopleDoings.{HasUser};
ghost use Rattle.words.specs.declared.edit.Edit.TheVariants.{UserEdit};
ghost use Rattle.gb_text.specs.declared.ruled.Line.{Line};
ghost use Rattle.gb_text.specs.declared.ruled.Title.{Title};

/// A new version of the user is refused as one too many if and only if the user's chain has 2^16
/// versions, where the words satisfy their rules. Then 65,537 is reported. The one other number that a
/// refusal reports is 4,194,305, for an object.
pub fn full_chains_are_refused()
    ensures only { (env : EnvValue) (name : Title) (email : Line) (old : History)
        → Refused env (UserEdit name email) old (refusal.TooLarge (2 ^ 16 + 1))
        → (user : HasUser env.folder (files_of old)) × (length user.chain.walk ≡ 2 ^ 16) }
    ensures told { (env : EnvValue) (name : Title) (email : Line) (old : History) (count : ℕ)
        → Refused env (UserEdit name email) old (refusal.TooLarge count)
        → (count ≡ 2 ^ 16 + 1) ⊎ (count ≡ 2 ^ 22 + 1) }
    ensures full { (env : EnvValue) (name : Title) (email : Line) (old : History)
        (user : HasUser env.folder (files_of old))
        → length user.chain.walk ≡ 2 ^ 16
        → Refused env (UserEdit name email) old (refusal.TooLarge (2 ^ 16 + 1)) }
{}
