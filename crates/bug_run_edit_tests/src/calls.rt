//! The calls of `repo_edit` that each add one operation to a bug.
use bug_ops::BugStatus;
use bug_run::moment_of;
use fixtures::{Disk, id};
use gb_text::{Folder, Id, List, Memory, Message, Title};
use repo_steps::{Env, Refusal, Stop};
use run_fixtures::Row::{self, Done};
use run_fixtures::hold;
use std::alloc::Global;
use std::test::Fail;

const BUG: &str = "b946b7380c3eb77a68d0dc6a49f8fb74554aad7c4dc3167cb4fe898d15cbfc63";

const BEGUN: &[Row] = &[
    Done(
        &["f", "user-new", "Ana", "ana@x"],
        1,
        "a206955f92c7be1bb318733460d3b85e208c8b1c8fb805c6d9991de1e0f35c00\n",
        5,
    ),
    Done(
        &["f", "new", "Login fails", "Since monday"],
        2,
        "b946b7380c3eb77a68d0dc6a49f8fb74554aad7c4dc3167cb4fe898d15cbfc63\n",
        12,
    ),
];

// A moment of a run with this number.
fn env(folder: Folder, number: u8) -> Env {
    Env {
        folder,
        moment: moment_of(100 + i64::from(number), [number; 32]),
    }
}

fn title_of(alloc: Global, text: &str) -> Result<Title, Stop> {
    Title::read(alloc, text)?.ok_or(Stop::Memory)
}

fn message_of(alloc: Global, text: &str) -> Result<Message, Stop> {
    Message::read(alloc, text)?.ok_or(Stop::Memory)
}

fn titles_of(alloc: Global, texts: &[&str]) -> Result<List<Title>, Stop> {
    let mut titles = Vec::new(alloc);
    for text in texts {
        titles.push(title_of(alloc, text)?).map_err(|_| Memory)?;
    }
    Ok(List::from_vec(titles))
}

// The contracts of the calls are long, so nothing goes on behind one here.
fn comment(disk: &mut Disk, folder: Folder) -> Result<Id, Stop> {
    let message = message_of(disk.alloc, "hi")?;
    repo_edit::comment(disk.alloc, &mut disk.store, &env(folder, 3), BUG, message)
}

fn noop(disk: &mut Disk, folder: Folder) -> Result<Id, Stop> {
    repo_edit::noop(disk.alloc, &mut disk.store, &env(folder, 4), BUG)
}

fn title(disk: &mut Disk, folder: Folder) -> Result<Id, Stop> {
    let title = title_of(disk.alloc, "Login works")?;
    repo_edit::title(disk.alloc, &mut disk.store, &env(folder, 5), BUG, title)
}

fn close(disk: &mut Disk, folder: Folder) -> Result<Id, Stop> {
    let env = env(folder, 7);
    repo_edit::set_status(disk.alloc, &mut disk.store, &env, BUG, BugStatus::Closed)
}

fn label_add(disk: &mut Disk, folder: Folder, labels: &[&str]) -> Result<Id, Stop> {
    let labels = titles_of(disk.alloc, labels)?;
    repo_edit::label_add(disk.alloc, &mut disk.store, &env(folder, 11), BUG, labels)
}

fn label_rm(disk: &mut Disk, folder: Folder, labels: &[&str]) -> Result<Id, Stop> {
    let labels = titles_of(disk.alloc, labels)?;
    repo_edit::label_rm(disk.alloc, &mut disk.store, &env(folder, 12), BUG, labels)
}

fn meta(disk: &mut Disk, folder: Folder) -> Result<Id, Stop> {
    let key = title_of(disk.alloc, "k")?;
    let value = message_of(disk.alloc, "v")?;
    repo_edit::meta(
        disk.alloc,
        &mut disk.store,
        &env(folder, 16),
        BUG,
        key,
        value,
    )
}

fn folder(disk: &Disk) -> Result<Folder, Fail> {
    Ok(Folder::read(disk.alloc, "f")?)
}

// Ids are those of the same edits by words, which a script apart from the program makes of the
// format.
#[test]
fn each_call_adds_its_operation(rt: HostRuntime) -> Result<(), Fail> {
    let alloc = rt.alloc();
    let mut disk = Disk::new(alloc)?;
    hold(&mut disk, BEGUN)?;
    let f = folder(&disk)?;
    assert_eq!(rt;
        comment(&mut disk, f)?,
        id("e4935016ce47972c287159671c9cc66a5f1ce2e49e398d1357bb86791390ebde")?
    );
    let f = folder(&disk)?;
    assert_eq!(rt;
        noop(&mut disk, f)?,
        id("239b4c7b0e733b50df3a82248123fd3d5b4d1866da84c86d9b488625380a9b3a")?
    );
    let f = folder(&disk)?;
    assert_eq!(rt;
        title(&mut disk, f)?,
        id("86515501d98b9f562fb5d727c51b3664e9f2c2c09e4fdae57246dca31859f383")?
    );
    let f = folder(&disk)?;
    assert_eq!(rt;
        close(&mut disk, f)?,
        id("c1544e98bb3a3800bab18ca27da2505abbef30288532992768fccf9b06ff25e3")?
    );
    let f = folder(&disk)?;
    assert_eq!(rt;
        meta(&mut disk, f)?,
        id("52a08175c83bd29d411fb97d04992b1e07390aeb08c8b513f0b9e5a8e0eebd40")?
    );
    assert_eq!(rt; disk.store.writes(), 37);
    Ok(())
}

#[test]
fn labels_are_put_on_and_taken_off(rt: HostRuntime) -> Result<(), Fail> {
    let alloc = rt.alloc();
    let mut disk = Disk::new(alloc)?;
    hold(&mut disk, BEGUN)?;
    let labels = ["b", "a", "b"];
    let f = folder(&disk)?;
    assert_eq!(rt;
        label_add(&mut disk, f, &labels)?,
        id("27af4e7058e09e8f6023c1eff1d47f88e33d4121dad1fd16bc1f66d19e0e4b80")?
    );
    let f = folder(&disk)?;
    label_rm(&mut disk, f, &labels)?;
    assert_eq!(rt; disk.store.writes(), 22);
    let f = folder(&disk)?;
    assert!(rt;
        matches!(
            label_rm(&mut disk, f, &labels),
            Err(Stop::Refused(Refusal::NoLabelChange))
        )
    );
    Ok(())
}
