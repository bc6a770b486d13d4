//! The files of clocks.
use fixtures::{Disk, text_at};
use gb_store::StoreFault;
use repo_state::{ClockFile, see};
use std::test::Fail;

fn seen(disk: &mut Disk, which: ClockFile, number: u64) -> Result<(), StoreFault> {
    see(disk.alloc, &mut disk.store, &disk.folder, which, number)
}

// Whether the file at a path has this text.
fn says(disk: &mut Disk, path: &str, text: &str) -> Result<bool, Fail> {
    Ok(text_at(disk, path)?.is_some_and(|found| found.as_str() == text))
}

#[test]
fn each_clock_stands_in_a_file_of_its_own(rt: HostRuntime) -> Result<(), Fail> {
    let mut disk = Disk::new(rt.alloc())?;
    assert_eq!(rt; seen(&mut disk, ClockFile::BugsCreate, 7), Ok(()));
    assert_eq!(rt; seen(&mut disk, ClockFile::BugsEdit, 12), Ok(()));
    assert!(rt; says(&mut disk, "f/git-bug/clocks/bugs-create", "7")?);
    assert!(rt; says(&mut disk, "f/git-bug/clocks/bugs-edit", "12")?);
    Ok(())
}
