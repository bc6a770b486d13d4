//! Operations are read by their members.
ghost use Rattle.bug_ops.specs.Readers.{AnswersCommon, AnswersMembers, AnswersText, AnswersType};
ghost use Rattle.bug_ops.specs.declared.op.OpType.TheVariants as types;

use crate::members::{
    files_in, labels_in, message_in, pairs_given, status_in, target_in, title_in, was_in,
};
use crate::op::{BugOp, OpType, type_of};
use op_kind::{Common, Field, OpFault, Place, common_in, read_fields};
use std::alloc::Global;

fn create_in(alloc: Global, common: Common, fields: &[Field]) -> Result<BugOp, OpFault>
    ensures { AnswersType types.Creation fields.now common result }
{
    let title = title_in(alloc, fields)?;
    let message = message_in(alloc, fields)?;
    let files = files_in(alloc, fields)?;
    Ok(BugOp::Create {
        common,
        title,
        message,
        files,
    })
}

fn set_title_in(alloc: Global, common: Common, fields: &[Field]) -> Result<BugOp, OpFault>
    ensures { AnswersType types.Title fields.now common result }
{
    let title = title_in(alloc, fields)?;
    let was = was_in(alloc, fields)?;
    Ok(BugOp::SetTitle { common, title, was })
}

fn add_comment_in(alloc: Global, common: Common, fields: &[Field]) -> Result<BugOp, OpFault>
    ensures { AnswersType types.Comment fields.now common result }
{
    let message = message_in(alloc, fields)?;
    let files = files_in(alloc, fields)?;
    Ok(BugOp::AddComment {
        common,
        message,
        files,
    })
}

fn set_status_in(common: Common, fields: &[Field]) -> Result<BugOp, OpFault>
    ensures { AnswersType types.Status fields.now common result }
{
    let status = status_in(fields)?;
    Ok(BugOp::SetStatus { common, status })
}

fn label_change_in(alloc: Global, common: Common, fields: &[Field]) -> Result<BugOp, OpFault>
    ensures { AnswersType types.Labels fields.now common result }
{
    let added = labels_in(alloc, fields, "added", 10)?;
    let removed = labels_in(alloc, fields, "removed", 11)?;
    Ok(BugOp::LabelChange {
        common,
        added,
        removed,
    })
}

fn edit_comment_in(alloc: Global, common: Common, fields: &[Field]) -> Result<BugOp, OpFault>
    ensures { AnswersType types.Edit fields.now common result }
{
    let target = target_in(alloc, fields)?;
    let message = message_in(alloc, fields)?;
    let files = files_in(alloc, fields)?;
    Ok(BugOp::EditComment {
        common,
        target,
        message,
        files,
    })
}

fn set_metadata_in(alloc: Global, common: Common, fields: &[Field]) -> Result<BugOp, OpFault>
    ensures { AnswersType types.Metadata fields.now common result }
{
    let target = target_in(alloc, fields)?;
    let pairs = pairs_given(alloc, fields)?;
    Ok(BugOp::SetMetadata {
        common,
        target,
        pairs,
    })
}

// The operation of a type.
fn typed_in(alloc: Global, common: Common, fields: &[Field], kind: OpType) -> Result<BugOp, OpFault>
    ensures { AnswersType kind fields.now common result }
{
    match kind {
        OpType::Creation => create_in(alloc, common, fields),
        OpType::Title => set_title_in(alloc, common, fields),
        OpType::Comment => add_comment_in(alloc, common, fields),
        OpType::Status => set_status_in(common, fields),
        OpType::Labels => label_change_in(alloc, common, fields),
        OpType::Edit => edit_comment_in(alloc, common, fields),
        OpType::Nothing => Ok(BugOp::NoOp { common }),
        OpType::Metadata => set_metadata_in(alloc, common, fields),
    }
}

// The operation with a common part.
#[tactic(auto, unfolding(op_kind::specs::Tables::op_with))]
fn op_with(alloc: Global, place: Place, common: Common, fields: &[Field]) -> Result<BugOp, OpFault>
    ensures { AnswersCommon place fields.now common result }
{
    match type_of(common.kind) {
        Some(kind) => typed_in(alloc, common, fields, kind),
        None => Err(OpFault::UnknownType(common.kind)),
    }
}

// The operation of an object's members.
fn op_in(alloc: Global, place: Place, fields: &[Field]) -> Result<BugOp, OpFault>
    ensures { AnswersMembers place fields.now result }
{
    let common = common_in(alloc, place, fields)?;
    op_with(alloc, place, common, fields)
}

pub(crate) fn read(alloc: Global, place: Place, text: &[u8]) -> Result<BugOp, OpFault>
    ensures { AnswersText place text.now result }
{
    match read_fields(alloc, text)? {
        None => Err(OpFault::NotObject),
        Some(fields) => op_in(alloc, place, &fields),
    }
}
