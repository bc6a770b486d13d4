//! Appending: worked names, and that calls succeed.
ghost use Rattle.std.specs.Prelude.{◌≡◌, IfOk};
ghost use Rattle.op_kind.specs.AnyKind.{any_kind};
ghost use Rattle.dag_entity.specs.Appending.{MayBeWritten};

use dag_entity::append;
use fixtures::{Disk, name, put_under};
use gb_text::{Id, Name};
use lamport::Clock;
use object_store::PutFault;
use op_kind::{AnyOp, VERSION};
use op_pack::{Pack, TreeHead};
use std::alloc::Global;
use std::test::Fail;

/// A head with the edit clock 2 and the create clock 1.
fn head() -> TreeHead
    ensures { result.version ≡ VERSION }
{
    TreeHead {
        version: VERSION,
        edit: Clock::read(b"1").root_time(),
        create: Some(Clock::read(b"0").root_time()),
        ops: Name { bytes: [9; 20] },
    }
}

/// The text of a pack of one operation.
const TEXT: &[u8] =
    b"{\"author\":{\"id\":\"0101010101010101010101010101010101010101010101010101010101010101\"},\"ops\":[{\"nonce\":\"AAAAAAAAAAAAAAAAAAAAAAAAAAA=\",\"timestamp\":0,\"type\":1}]}";

// The pack of that text.
fn pack(alloc: Global) -> Result<Pack<AnyOp>, Fail>
    ensures { IfOk result (λ pack. MayBeWritten any_kind pack) }
{
    let head = head();
    let read = Pack::<AnyOp>::read(alloc, &head, TEXT)?;
    Ok(Pack {
        id: Id { bytes: [0; 32] },
        version: head.version,
        edit: head.edit,
        create: head.create,
        author: read.author,
        ops: read.ops,
    })
}

// Appends it in the folder.
fn append_it(disk: &mut Disk, parents: &[Name]) -> Result<Result<Name, PutFault>, Fail> {
    let pack = pack(disk.alloc)?;
    Ok(append(
        disk.alloc,
        &mut disk.store,
        &disk.folder,
        parents,
        &pack,
        1_700_000_000,
    ))
}

#[test]
fn a_root_is_put_once(rt: HostRuntime) -> Result<(), Fail> {
    let mut disk = Disk::new(rt.alloc())?;
    let root = name("2dc291c4d45dc54d42353f2d665f2e7cae4db41a")?;
    assert_eq!(rt; append_it(&mut disk, &[])?, Ok(root));
    assert_eq!(rt; disk.store.writes(), 4);
    assert_eq!(rt; append_it(&mut disk, &[])?, Ok(root));
    assert_eq!(rt; disk.store.writes(), 4);
    Ok(())
}

#[test]
fn parents_stand_in_order(rt: HostRuntime) -> Result<(), Fail> {
    let mut disk = Disk::new(rt.alloc())?;
    let parents = [Name { bytes: [7; 20] }, Name { bytes: [8; 20] }];
    let merge = name("4daf443cf948c10e33c36c38ea487859012104f7")?;
    assert_eq!(rt; append_it(&mut disk, &parents)?, Ok(merge));
    assert_eq!(rt; disk.store.writes(), 4);
    Ok(())
}

#[test]
fn a_taken_name_stops_all(rt: HostRuntime) -> Result<(), Fail> {
    let mut disk = Disk::new(rt.alloc())?;
    let root = name("2dc291c4d45dc54d42353f2d665f2e7cae4db41a")?;
    put_under(&mut disk, &root, b"x")?;
    assert_eq!(rt; append_it(&mut disk, &[])?, Err(PutFault::Taken(root)));
    assert_eq!(rt; disk.store.writes(), 1);
    Ok(())
}
