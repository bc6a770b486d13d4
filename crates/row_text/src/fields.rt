//! The members of a row's text, by the texts of their names.
ghost use Rattle.std.specs.Prelude.{◌≡◌, Some, IfOk, option_and_then};
ghost use Rattle.std.specs.Option.{option_map};
ghost use Rattle.json_span.specs.Parts.{members_of};
ghost use Rattle.op_kind.specs.FieldLists.{fields_in};
ghost use Rattle.op_kind.specs.Members.{only_value, values_of};
ghost use Rattle.row_text.specs.Rows.{fields_of_all};

use gb_text::Memory;
use json_span::{SpanFault, members};
use op_kind::{Field, find, read_text};
use std::alloc::Global;

/// How many members a row has.
pub(crate) const MEMBERS: usize = 15;

/// The fields of an object of fifteen members. None where the text is no such object.
pub(crate) fn row_fields<'a>(
    alloc: Global,
    text: &'a [u8],
) -> Result<Option<Vec<Field<'a>>>, Memory>
    ensures { IfOk result (λ o. option_map (λ v. fields_in v.items) o
        ≡ option_and_then fields_of_all (members_of text.now)) }
{
    let parts = match members(alloc, text) {
        Ok(parts) => parts,
        Err(SpanFault::Memory) => return Err(Memory),
        Err(SpanFault::NotSplit(_)) => return Ok(None),
    };
    if parts.len() != MEMBERS {
        return Ok(None);
    }
    let mut fields = Vec::new(alloc);
    for part in &parts {
        if let Some(name) = read_text(alloc, part.name.cut(text))? {
            let value = part.value.cut(text);
            fields.push(Field { name, value })?;
        }
    }
    Ok(Some(fields))
}

/// The value of the only member with a name. None where there is none, or more than one.
#[tactic(auto, using(crate::proofs::FieldLemmas::only_twice))]
pub(crate) fn only<'a>(fields: &[Field<'a>], name: &str) -> Option<&'a [u8]>
    ensures { option_map (λ v. v.now) result
        ≡ only_value Some (values_of name.now (fields_in fields.now)) }
{
    match find(fields, name) {
        Some(Some(value)) => Some(value),
        Some(None) => None,
        None => None,
    }
}
