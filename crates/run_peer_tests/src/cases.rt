//! The commits of a good bug, its id, and operations.
use crate::objects::{Body, Commit};
use crate::pulls::Entity;
use fixtures::CREATE;

/// The bug that begins with the least operation.
pub const X: Entity = (
    "bugs",
    "3912f32747d1e7d315d89cd550e61a80638342c85e80fec8f844c37035613dc8",
);

/// The names in the tree of a root.
pub const FIRST: &[&str] = &["create-clock-1", "edit-clock-1", "ops", "version-4"];

/// Those in the tree of a commit above it.
pub const SECOND: &[&str] = &["edit-clock-2", "ops", "version-4"];

/// Those in the tree of a commit above that.
pub const THIRD: &[&str] = &["edit-clock-3", "ops", "version-4"];

/// Operations that change nothing.
pub const NO_OP_1: &[u8] =
    b"{\"nonce\":\"AAAAAAAAAAAAAAAAAAAAAAAAAAA=\",\"timestamp\":1,\"type\":7}";

pub const NO_OP_2: &[u8] =
    b"{\"nonce\":\"AAAAAAAAAAAAAAAAAAAAAAAAAAA=\",\"timestamp\":2,\"type\":7}";

pub const NO_OP_3: &[u8] =
    b"{\"nonce\":\"AAAAAAAAAAAAAAAAAAAAAAAAAAA=\",\"timestamp\":3,\"type\":7}";

/// A good root.
pub const ROOT: Commit = Commit(&[], FIRST, Body::Ops(&[CREATE]));

/// A good commit above it.
pub const CHILD: Commit = Commit(&["c0"], SECOND, Body::Ops(&[NO_OP_1]));
