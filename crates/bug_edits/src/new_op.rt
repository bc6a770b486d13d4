//! Operations that may be written.
ghost use Rattle.bug_ops.specs.Kind.{bug_kind};

use bug_ops::BugOp;

/// An operation that satisfies the rules of bugs' operations, so that what is written of it reads
/// back.
#[derive(Drop)]
pub struct NewOp {
    pub op: BugOp,
    pub ghost rules: { ∥ bug_kind.KeepsRules op ∥₁ },
}
