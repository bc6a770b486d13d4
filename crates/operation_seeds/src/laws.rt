//! A law of seeds, the contract of a function that does nothing.
ghost use Rattle.std.specs.Prelude.{◌≡◌, ◌≢◌, ◌∷◌, ◌++◌, ◌⊎◌, []};
ghost use Rattle.bug_edits.specs.NewOps.{IsOfTheMoment, op_id};
ghost use Rattle.bug_edits.specs.declared.moment.Moment.{Moment as MomentValue};
ghost use Rattle.bug_ops.specs.Kind.{bug_kind};
ghost use Rattle.bug_ops.specs.declared.op.BugOp.{BugOp as OpValue};
ghost use Rattle.operation_seeds.specs.Collisions.{Collide};

/// Two operations that commands make with unlike seeds have unlike ids, unless two texts that
/// differ have one SHA-256: those of the operations, or those of which their nonces are made.
pub fn unlike_seeds_make_unlike_operations()
    ensures { (first second : MomentValue) (one two : OpValue)
        → IsOfTheMoment first one → IsOfTheMoment second two
        → bug_kind.KeepsRules one → bug_kind.KeepsRules two
        → first.seed ≢ second.seed → op_id one ≡ op_id two
        → Collide (bug_kind.written one) (bug_kind.written two)
        ⊎ Collide (first.seed ++ 0 ∷ []) (second.seed ++ 0 ∷ []) }
{}
