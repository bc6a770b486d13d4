//! Operations are written as lists of members, in byte order of their names.
ghost use Rattle.std.specs.Prelude.{◌≡◌, map, IfOk};
ghost use Rattle.op_kind.specs.FieldLists.{fields_for};
ghost use Rattle.op_kind.specs.Tables.{members_of_op, op_text};
ghost use Rattle.bug_ops.specs.BugForms.{digits_of, names_text, id_text, status_number};
ghost use Rattle.bug_ops.specs.BugTable.{bug_table};
ghost use Rattle.bug_ops.specs.Writers.{WritesType};
ghost use Rattle.bug_ops.specs.declared.op.OpType.TheVariants as types;

use crate::op::{BugOp, BugStatus};
use gb_text::{Bytes, Id, List, Memory, Name, Text};
use op_kind::{
    Common, Pair, Written, common_members, print_decimal, put_member, quote, quote_pairs,
    quote_texts, write_members,
};
use std::alloc::Global;

// The digits of an object name.
fn digits(alloc: Global, name: &Name) -> Result<Text, Memory>
    ensures { IfOk result (λ t. t ≡ digits_of name.now) }
{
    let digits = name.text();
    let Ok(digits) = std::str::from_utf8(&digits) else {
        unreachable!();
    };
    Text::from_str(alloc, digits)
}

// The texts of object names.
fn all_digits(alloc: Global, names: &[Name]) -> Result<Vec<Text>, Memory>
    ensures { IfOk result (λ v. v.items ≡ map digits_of names.now) }
{
    let mut texts = Vec::new(alloc);
    for name in names {
        texts.push(digits(alloc, name)?)?;
    }
    Ok(texts)
}

fn quote_names(alloc: Global, names: &[Name]) -> Result<Text, Memory>
    ensures { IfOk result (λ t. t ≡ names_text names.now) }
{
    let texts = all_digits(alloc, names)?;
    quote_texts(alloc, &texts)
}

fn quote_id(alloc: Global, id: &Id) -> Result<Text, Memory>
    ensures { IfOk result (λ t. t ≡ id_text id.now) }
{
    let digits = id.text();
    let Ok(digits) = std::str::from_utf8(&digits) else {
        unreachable!();
    };
    quote(alloc, digits)
}

// The number of a status.
fn status_number(status: BugStatus) -> u64
    ensures { result ≡ status_number status }
{
    match status {
        BugStatus::Opened => 1,
        BugStatus::Closed => 2,
    }
}

fn create_members<'a>(
    alloc: Global,
    common: &Common,
    title: &Text,
    message: &Text,
    files: &List<Name>,
) -> Result<Vec<Written<'a>>, Memory>
    ensures { WritesType types.Creation common.now
        (title.now, (message.now, (files.now, tt))) result }
{
    let mut members = common_members(alloc, common)?;
    let value = quote(alloc, title.as_str())?;
    put_member(&mut members, "title", value)?;
    let value = quote(alloc, message.as_str())?;
    put_member(&mut members, "message", value)?;
    let value = quote_names(alloc, files.as_slice())?;
    put_member(&mut members, "files", value)?;
    Ok(members)
}

fn set_title_members<'a>(
    alloc: Global,
    common: &Common,
    title: &Text,
    was: &Text,
) -> Result<Vec<Written<'a>>, Memory>
    ensures { WritesType types.Title common.now (title.now, (was.now, tt)) result }
{
    let mut members = common_members(alloc, common)?;
    let value = quote(alloc, title.as_str())?;
    put_member(&mut members, "title", value)?;
    let value = quote(alloc, was.as_str())?;
    put_member(&mut members, "was", value)?;
    Ok(members)
}

fn add_comment_members<'a>(
    alloc: Global,
    common: &Common,
    message: &Text,
    files: &List<Name>,
) -> Result<Vec<Written<'a>>, Memory>
    ensures { WritesType types.Comment common.now (message.now, (files.now, tt)) result }
{
    let mut members = common_members(alloc, common)?;
    let value = quote(alloc, message.as_str())?;
    put_member(&mut members, "message", value)?;
    let value = quote_names(alloc, files.as_slice())?;
    put_member(&mut members, "files", value)?;
    Ok(members)
}

fn set_status_members<'a>(
    alloc: Global,
    common: &Common,
    status: BugStatus,
) -> Result<Vec<Written<'a>>, Memory>
    ensures { WritesType types.Status common.now (status, tt) result }
{
    let mut members = common_members(alloc, common)?;
    let value = print_decimal(alloc, status_number(status))?;
    put_member(&mut members, "status", value)?;
    Ok(members)
}

fn label_change_members<'a>(
    alloc: Global,
    common: &Common,
    added: &List<Text>,
    removed: &List<Text>,
) -> Result<Vec<Written<'a>>, Memory>
    ensures { WritesType types.Labels common.now (added.now, (removed.now, tt)) result }
{
    let mut members = common_members(alloc, common)?;
    let value = quote_texts(alloc, added.as_slice())?;
    put_member(&mut members, "added", value)?;
    let value = quote_texts(alloc, removed.as_slice())?;
    put_member(&mut members, "removed", value)?;
    Ok(members)
}

fn edit_comment_members<'a>(
    alloc: Global,
    common: &Common,
    target: &Id,
    message: &Text,
    files: &List<Name>,
) -> Result<Vec<Written<'a>>, Memory>
    ensures { WritesType types.Edit common.now
        (target.now, (message.now, (files.now, tt))) result }
{
    let mut members = common_members(alloc, common)?;
    let value = quote_id(alloc, target)?;
    put_member(&mut members, "target", value)?;
    let value = quote(alloc, message.as_str())?;
    put_member(&mut members, "message", value)?;
    let value = quote_names(alloc, files.as_slice())?;
    put_member(&mut members, "files", value)?;
    Ok(members)
}

fn set_metadata_members<'a>(
    alloc: Global,
    common: &Common,
    target: &Id,
    pairs: &List<Pair>,
) -> Result<Vec<Written<'a>>, Memory>
    ensures { WritesType types.Metadata common.now (target.now, (pairs.now, tt)) result }
{
    let mut members = common_members(alloc, common)?;
    let value = quote_id(alloc, target)?;
    put_member(&mut members, "target", value)?;
    let value = quote_pairs(alloc, pairs.as_slice())?;
    put_member(&mut members, "new_metadata", value)?;
    Ok(members)
}

// The members of an operation.
fn members_of_op<'a>(alloc: Global, op: &BugOp) -> Result<Vec<Written<'a>>, Memory>
    ensures { IfOk result (λ v. fields_for v.items ≡ members_of_op bug_table op.now) }
{
    match op {
        BugOp::Create {
            common,
            title,
            message,
            files,
        } => create_members(alloc, common, title, message, files),
        BugOp::SetTitle { common, title, was } => set_title_members(alloc, common, title, was),
        BugOp::AddComment {
            common,
            message,
            files,
        } => add_comment_members(alloc, common, message, files),
        BugOp::SetStatus { common, status } => set_status_members(alloc, common, *status),
        BugOp::LabelChange {
            common,
            added,
            removed,
        } => label_change_members(alloc, common, added, removed),
        BugOp::EditComment {
            common,
            target,
            message,
            files,
        } => edit_comment_members(alloc, common, target, message, files),
        BugOp::NoOp { common } => common_members(alloc, common),
        BugOp::SetMetadata {
            common,
            target,
            pairs,
        } => set_metadata_members(alloc, common, target, pairs),
    }
}

pub(crate) fn write(alloc: Global, op: &BugOp) -> Result<Bytes, Memory>
    ensures { IfOk result (λ b. b ≡ op_text bug_table op.now) }
{
    let members = members_of_op(alloc, op)?;
    write_members(alloc, &members)
}
