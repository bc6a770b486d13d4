//! The texts that events name.
ghost use Rattle.std.specs.Prelude.{◌≡◌, IfOk, string_bytes};
ghost use Rattle.world_events.specs.Words.{folder_word, label_text, mail_text, message_text, title_text, user_text};

use gb_text::Memory;
use std::alloc::Global;

/// The word of a folder, which is also its name as a remote.
pub fn folder_word(alloc: Global, folder: u32) -> Result<String, Memory>
    ensures { IfOk result (λ text. string_bytes text ≡ folder_word folder) }
{
    Ok(format!(in alloc; "w{folder}")?)
}

/// The name of a folder's person.
pub fn user_text(alloc: Global, folder: u32) -> Result<String, Memory>
    ensures { IfOk result (λ text. string_bytes text ≡ user_text folder) }
{
    Ok(format!(in alloc; "user{folder}")?)
}

/// The mail address of a folder's person.
pub fn mail_text(alloc: Global, folder: u32) -> Result<String, Memory>
    ensures { IfOk result (λ text. string_bytes text ≡ mail_text folder) }
{
    Ok(format!(in alloc; "u{folder}@w")?)
}

/// The title that an event gives.
pub fn title_text(alloc: Global, number: u64) -> Result<String, Memory>
    ensures { IfOk result (λ text. string_bytes text ≡ title_text number) }
{
    Ok(format!(in alloc; "title {number}")?)
}

/// The message that an event gives.
pub fn message_text(alloc: Global, number: u64) -> Result<String, Memory>
    ensures { IfOk result (λ text. string_bytes text ≡ message_text number) }
{
    Ok(format!(in alloc; "message {number}")?)
}

/// A label.
pub fn label_text(alloc: Global, label: u64) -> Result<String, Memory>
    ensures { IfOk result (λ text. string_bytes text ≡ label_text label) }
{
    Ok(format!(in alloc; "label {label}")?)
}
