//! Members that are read by their forms.
use crate::common::place;
use gb_text::Id;
use op_kind::{
    Field, OpFault, decimal_in, id_in, optional_text_in, pairs_in, read_fields, text_in, texts_in,
};
use std::alloc::Global;
use std::test::Fail;

/// Members of each form.
const MEMBERS: &[u8] = b"{\"title\":\"a\",\"status\":2,\"added\":[\"x\",\"y\"],\"removed\":null,\
    \"new_metadata\":{\"k\":\"v\"},\
    \"target\":\"0101010101010101010101010101010101010101010101010101010101010101\"}";

/// The same, each of another form.
const OTHER_FORMS: &[u8] = b"{\"new_metadata\":null,\"target\":\"01\",\"added\":[\"x\",1],\
    \"was\":null,\"status\":\"1\"}";

fn fields(alloc: Global, text: &[u8]) -> Result<Vec<Field>, Fail> {
    Ok(read_fields(alloc, text)?.ok_or("an object")?)
}

fn is_text(alloc: Global, fields: &[Field], name: &str, wanted: &str) -> Result<bool, OpFault> {
    Ok(text_in(alloc, fields, name, 5)?.as_str() == wanted)
}

fn is_absent(alloc: Global, fields: &[Field], name: &str) -> Result<bool, OpFault> {
    Ok(
        optional_text_in(alloc, fields, name, 6)?
            .as_str()
            .is_empty(),
    )
}

fn decimal(fields: &[Field], name: &str) -> Result<u64, OpFault> {
    decimal_in(fields, name, 9)
}

fn id(alloc: Global, fields: &[Field], name: &str) -> Result<Id, OpFault> {
    id_in(alloc, fields, name, 12)
}

fn count_texts(alloc: Global, fields: &[Field], name: &str) -> Result<usize, OpFault> {
    Ok(texts_in(alloc, fields, name, 10)?.len())
}

fn count_pairs(alloc: Global, fields: &[Field], name: &str) -> Result<usize, OpFault> {
    Ok(pairs_in(alloc, fields, name, 13)?.len())
}

#[test]
fn members_are_read_by_their_forms(rt: HostRuntime) -> Result<(), Fail> {
    let alloc = rt.alloc();
    let fields = fields(alloc, MEMBERS)?;
    assert!(rt; is_text(alloc, &fields, "title", "a")?);
    assert!(rt; is_absent(alloc, &fields, "was")?);
    assert_eq!(rt; decimal(&fields, "status")?, 2);
    assert_eq!(rt; id(alloc, &fields, "target")?, place(1).id);
    assert_eq!(rt; count_texts(alloc, &fields, "added")?, 2);
    assert_eq!(rt; count_texts(alloc, &fields, "removed")?, 0);
    assert_eq!(rt; count_pairs(alloc, &fields, "new_metadata")?, 1);
    Ok(())
}

#[test]
fn members_of_no_such_form_or_none_are_refused(rt: HostRuntime) -> Result<(), Fail> {
    let alloc = rt.alloc();
    let fields = fields(alloc, MEMBERS)?;
    let fault = is_text(alloc, &fields, "status", "").err();
    assert_eq!(rt; fault, Some(OpFault::BadMember(5)));
    let fault = decimal(&fields, "timestamp").err();
    assert_eq!(rt; fault, Some(OpFault::BadMember(9)));
    Ok(())
}

#[test]
fn members_of_another_form_are_refused(rt: HostRuntime) -> Result<(), Fail> {
    let alloc = rt.alloc();
    let fields = fields(alloc, OTHER_FORMS)?;
    let faults = [
        count_pairs(alloc, &fields, "new_metadata").err(),
        id(alloc, &fields, "target").err(),
        count_texts(alloc, &fields, "added").err(),
        is_absent(alloc, &fields, "was").err(),
        decimal(&fields, "status").err(),
    ];
    for (fault, number) in faults.iter().zip([13, 12, 10, 6, 9]) {
        assert!(rt; *fault == Some(OpFault::BadMember(number)));
    }
    Ok(())
}
