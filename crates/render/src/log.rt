//! The log of a bug.
ghost use Rattle.std.specs.Prelude.{◌≡◌, IfOk};
ghost use Rattle.person_names.specs.Adding.{Adds};
ghost use Rattle.render.specs.Log.{log_line, log_text_of};

use bug_ops::BugOp;
use dag_entity::{Entity, Placed};
use gb_text::{Memory, Text, push_line_end, push_name, push_number};
use std::alloc::{AllocError, Global};

/// A line for each commit of the entity, in the order of its packs: the edit clock and the name.
pub fn log_text(alloc: Global, entity: &Entity<BugOp>) -> Result<Text, Memory>
    ensures { IfOk result (λ text. text ≡ log_text_of entity.now.packs) }
{
    packs_text(alloc, entity.packs.as_slice())
}

// The lines of these packs.
fn packs_text(alloc: Global, packs: &[Placed<BugOp>]) -> Result<Text, Memory>
    ensures { IfOk result (λ text. text ≡ log_text_of packs.now) }
{
    let mut text = String::new(alloc);
    for placed in packs {
        push_line(&mut text, placed)?;
    }
    Ok(Text::from_string(text))
}

// Adds the line of a pack.
fn push_line(text: &mut String, placed: &Placed<BugOp>) -> Result<(), AllocError>
    ensures { Adds result text.old text.new (log_line placed.now) }
{
    push_number(text, placed.pack.edit.number())?;
    text.push_str(" ")?;
    push_name(text, &placed.commit)?;
    push_line_end(text)
}
