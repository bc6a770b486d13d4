//! The text of the lines of a merge.
ghost use Rattle.std.specs.Prelude.{◌≡◌, ◌++◌, IfOk, OnOk, codes, decimal, string_bytes};
ghost use Rattle.sync_steps.specs.Lines.{word_text};
ghost use Rattle.dag_entity.specs.declared.fault.EntityFault.TheVariants.{BadOperation, UnknownVersion};
ghost use Rattle.merge_steps.specs.FaultTexts.{entity_fault_text, identity_fault_text, op_fault_text, with_id, with_name};
ghost use Rattle.merge_steps.specs.MergeLines.{line_text, lines_text_of, outcome_text};

use crate::line::{MergeLine, MergeOutcome};
use dag_entity::EntityFault;
use gb_text::{Id, Memory, Name, Text, push_id, push_line_end, push_name, push_number};
use identity::IdentityFault;
use op_kind::OpFault;
use std::alloc::{AllocError, Global};
use sync_steps::EntityWord;

/// The lines, each ended by a line feed: `merge`, the kind of the entity, its id, and what came of
/// it. Ids and names have all their digits.
pub fn lines_text(alloc: Global, lines: &[MergeLine]) -> Result<Text, Memory>
    ensures { IfOk result (λ text. text ≡ lines_text_of lines.now) }
{
    let mut text = String::new(alloc);
    for line in lines {
        push_line(&mut text, line)?;
    }
    Ok(Text::from_string(text))
}

// Adds a line.
fn push_line(text: &mut String, line: &MergeLine) -> Result<(), AllocError>
    ensures { OnOk result (string_bytes text.new ≡ string_bytes text.old ++ line_text line.now) }
{
    text.push_str("merge ")?;
    text.push_str(word(line.word))?;
    text.push_str(" ")?;
    push_id(text, &line.id)?;
    text.push_str(" ")?;
    push_outcome(text, &line.outcome)?;
    push_line_end(text)
}

// A kind of entities, as a word.
fn word(word: EntityWord) -> &'static str
    ensures { result.now ≡ word_text word }
{
    match word {
        EntityWord::Identity => "identity",
        EntityWord::Bug => "bug",
    }
}

// Adds what came of an entity.
fn push_outcome(text: &mut String, outcome: &MergeOutcome) -> Result<(), AllocError>
    ensures { OnOk result (string_bytes text.new
        ≡ string_bytes text.old ++ outcome_text outcome.now) }
{
    match outcome {
        MergeOutcome::Nothing => text.push_str("nothing"),
        MergeOutcome::New => text.push_str("new"),
        MergeOutcome::Forward => text.push_str("forward"),
        MergeOutcome::Joined => text.push_str("joined"),
        MergeOutcome::InvalidBug(fault) => push_bug_fault(text, fault),
        MergeOutcome::InvalidIdentity(fault) => push_identity_fault(text, fault),
        MergeOutcome::NotForward(name) => push_named(text, "not-forward", name),
    }
}

// Adds what is wrong with an entity, behind a word.
fn push_bug_fault(text: &mut String, fault: &EntityFault) -> Result<(), AllocError>
    ensures { OnOk result (string_bytes text.new
        ≡ string_bytes text.old ++ (codes "invalid " ++ entity_fault_text fault.now)) }
{
    text.push_str("invalid ")?;
    match fault {
        EntityFault::Memory => text.push_str("memory"),
        EntityFault::Disk => text.push_str("disk"),
        EntityFault::Missing(name) => push_named(text, "E1", name),
        EntityFault::Damaged(name) => push_named(text, "E2", name),
        EntityFault::NotCommit(name) => push_named(text, "E3", name),
        EntityFault::BadTree(name) => push_named(text, "E4", name),
        EntityFault::UnknownVersion(name, version) => push_version(text, name, *version),
        EntityFault::NoOps(name) => push_named(text, "E6", name),
        EntityFault::BadClock(name) => push_named(text, "E7", name),
        EntityFault::BadPack(name) => push_named(text, "E8", name),
        EntityFault::BadOperation(name, place, fault) => push_operation(text, name, *place, fault),
        EntityFault::SecondRoot(name) => push_named(text, "E10", name),
        EntityFault::ClockOrder(high, low) => push_two(text, "E11", high, low),
        EntityFault::ClockJump(high, low) => push_two(text, "E12", high, low),
        EntityFault::MergeHasOperations(name) => push_named(text, "E13", name),
        EntityFault::NoCreateClock(name) => push_named(text, "E14", name),
        EntityFault::RepeatedOperation(id) => push_with_id(text, "E15", id),
        EntityFault::WrongId(id) => push_with_id(text, "E16", id),
        EntityFault::FirstNotCreate => text.push_str("E17"),
        EntityFault::SecondCreate(id) => push_with_id(text, "E18", id),
        EntityFault::AuthorUnknown(id) => push_with_id(text, "E19", id),
        EntityFault::TooLarge(count) => push_counted(text, "E20 ", *count),
        EntityFault::ClockFull(name) => push_named(text, "E21", name),
    }
}

// Adds what is wrong with the chain of an identity, behind a word.
fn push_identity_fault(text: &mut String, fault: &IdentityFault) -> Result<(), AllocError>
    ensures { OnOk result (string_bytes text.new
        ≡ string_bytes text.old ++ (codes "invalid " ++ identity_fault_text fault.now)) }
{
    text.push_str("invalid ")?;
    match fault {
        IdentityFault::Memory => text.push_str("memory"),
        IdentityFault::Disk => text.push_str("disk"),
        IdentityFault::Missing(name) => push_named(text, "I1", name),
        IdentityFault::Damaged(name) => push_named(text, "I2", name),
        IdentityFault::NotCommit(name) => push_named(text, "I3", name),
        IdentityFault::BadVersion(name) => push_named(text, "I4", name),
        IdentityFault::KeysPresent(name) => push_named(text, "I5", name),
        IdentityFault::NotLinear(name) => push_named(text, "I6", name),
        IdentityFault::WrongId(id) => push_with_id(text, "I7", id),
        IdentityFault::TooLarge(count) => push_counted(text, "I8 ", *count),
    }
}

// Adds what is wrong with an operation, behind its commit and its place.
fn push_operation(
    text: &mut String,
    name: &Name,
    place: u64,
    fault: &OpFault,
) -> Result<(), AllocError>
    ensures { OnOk result (string_bytes text.new
        ≡ string_bytes text.old ++ entity_fault_text (BadOperation name.now place fault.now)) }
{
    push_named(text, "E9", name)?;
    text.push_str(" ")?;
    push_number(text, place)?;
    text.push_str(" ")?;
    push_op_fault(text, fault)
}

// Adds what is wrong with an operation.
fn push_op_fault(text: &mut String, fault: &OpFault) -> Result<(), AllocError>
    ensures { OnOk result (string_bytes text.new
        ≡ string_bytes text.old ++ op_fault_text fault.now) }
{
    match fault {
        OpFault::Memory => text.push_str("memory"),
        OpFault::NotObject => text.push_str("not-object"),
        OpFault::NoType => text.push_str("no-type"),
        OpFault::UnknownType(number) => push_counted(text, "unknown-type ", *number),
        OpFault::BadTime => text.push_str("bad-time"),
        OpFault::BadNonce => text.push_str("bad-nonce"),
        OpFault::BadMember(number) => push_counted(text, "bad-member ", *number as u64),
        OpFault::BadText(number) => push_counted(text, "bad-text ", *number as u64),
    }
}

// Adds the version of a commit's tree.
fn push_version(text: &mut String, name: &Name, version: u64) -> Result<(), AllocError>
    ensures { OnOk result (string_bytes text.new
        ≡ string_bytes text.old ++ entity_fault_text (UnknownVersion name.now version)) }
{
    push_named(text, "E5", name)?;
    push_counted(text, " ", version)
}

// Adds two names, behind a word.
fn push_two(text: &mut String, word: &str, high: &Name, low: &Name) -> Result<(), AllocError>
    ensures { OnOk result (string_bytes text.new
        ≡ string_bytes text.old ++ (word.now ++ (with_name high.now ++ with_name low.now))) }
{
    push_named(text, word, high)?;
    push_named(text, "", low)
}

// Adds a space and the digits of a name, behind a word.
fn push_named(text: &mut String, word: &str, name: &Name) -> Result<(), AllocError>
    ensures { OnOk result (string_bytes text.new
        ≡ string_bytes text.old ++ (word.now ++ with_name name.now)) }
{
    text.push_str(word)?;
    text.push_str(" ")?;
    push_name(text, name)
}

// Adds a space and the digits of an id, behind a word.
fn push_with_id(text: &mut String, word: &str, id: &Id) -> Result<(), AllocError>
    ensures { OnOk result (string_bytes text.new
        ≡ string_bytes text.old ++ (word.now ++ with_id id.now)) }
{
    text.push_str(word)?;
    text.push_str(" ")?;
    push_id(text, id)
}

// Adds a number, behind a word.
fn push_counted(text: &mut String, word: &str, number: u64) -> Result<(), AllocError>
    ensures { OnOk result (string_bytes text.new
        ≡ string_bytes text.old ++ (word.now ++ decimal number)) }
{
    text.push_str(word)?;
    push_number(text, number)
}
