//! What a folder shows of its bugs.
ghost use Rattle.std.specs.Prelude.{◌≡◌, IfOk, IsTrue, map, string_bytes};
ghost use Rattle.gb_store.specs.MemStore.{has_no_fails};
ghost use Rattle.world.specs.Shown.{IsHashOf, Shows, show_words};

use crate::runs::{ended_of, new_sink, run_over};
use bug_run::moment_of;
use gb_store::{MemSink, MemStore};
use gb_text::{Id, Memory, push_id};
use sha2::{Digest, Sha256};
use std::alloc::Global;
use world_events::folder_word;

/// The SHA-256 of what a folder shows of bugs, one after another.
pub fn hash_of(
    alloc: Global,
    store: &mut MemStore,
    folder: u32,
    bugs: &[Id],
) -> Result<[u8; 32], Memory>
    requires { IsTrue (has_no_fails store.old) }
    ensures hash { IfOk result (IsHashOf store.old.history folder bugs.now) }
    ensures unwritten { store.new.history ≡ store.old.history }
    ensures calm { IsTrue (has_no_fails store.new) }
{
    let mut hasher = Sha256::new();
    for bug in bugs {
        let out = shown(alloc, store, folder, bug)?;
        hasher.update(out.bytes());
    }
    Ok(hasher.finalize())
}

// What a folder shows of a bug.
fn shown(alloc: Global, store: &mut MemStore, folder: u32, bug: &Id) -> Result<MemSink, Memory>
    requires { IsTrue (has_no_fails store.old) }
    ensures shows { IfOk result (λ out. Shows store.old.history folder bug.now out.written) }
    ensures unwritten { store.new.history ≡ store.old.history }
    ensures calm { IsTrue (has_no_fails store.new) }
{
    let words = show_words(alloc, folder, bug)?;
    let mut out = new_sink(alloc);
    let status = run_over(alloc, store, &mut out, &words, moment_of(0, [0; 32]));
    ended_of(&status)?;
    Ok(out)
}

// The arguments that show a bug.
fn show_words(alloc: Global, folder: u32, bug: &Id) -> Result<Vec<String>, Memory>
    ensures { IfOk result (λ words. map string_bytes words.items ≡ show_words folder bug.now) }
{
    let mut digits = String::new(alloc);
    push_id(&mut digits, bug)?;
    let folder = folder_word(alloc, folder)?;
    let verb = String::from_str(alloc, "show")?;
    Ok(vec![in alloc; folder, verb, digits]?)
}
