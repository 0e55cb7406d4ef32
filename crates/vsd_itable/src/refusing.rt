//! What a refusal prints.
ghost use Rattle.std.specs.Prelude.{◌≡◌, ◌<◌, IfOk, length};
ghost use Rattle.vsd_check.specs.Checked.{decls_of};
ghost use Rattle.vsd_slots.specs.Refusals.{IsMissing};
ghost use Rattle.vsd_slots.specs.Slots.{IsRefusal};
ghost use Rattle.vsd_itable.specs.Refusals.{IsRefused, line_of};

use crate::error::BuildError;
use sqlite_items::Items;
use std::alloc::{AllocError, Global};
use vsd_check::Checked;
use vsd_slots::{SlotError, name_text, type_text};
use vsd_types::Closed;

// The line of the declaration of a type, 0 for a built-in.
fn line_of(checked: &Checked, closed: &Closed, t: u16) -> u32
    requires together { closed.now.decls ≡ decls_of checked.now }
    requires listed { t < length closed.now.types }
    ensures { result ≡ line_of closed.now t }
{
    match closed.declaration(t) {
        Some(place) => checked.decls().list.as_slice()[place as usize].line,
        None => 0,
    }
}

// What is told of a method that a class lacks.
fn missing(
    alloc: Global,
    checked: &Checked,
    closed: &Closed,
    class: u16,
    interface: u16,
    method: u16,
) -> Result<BuildError, AllocError>
    requires together { closed.now.decls ≡ decls_of checked.now }
    requires missing { IsMissing closed.now class interface method }
    ensures { IfOk result (IsRefused closed.now) }
{
    let line = line_of(checked, closed, class);
    let class = type_text(alloc, checked, closed, class)?;
    let name = name_text(alloc, checked, closed, interface, method)?;
    let interface = type_text(alloc, checked, closed, interface)?;
    Ok(BuildError::MissingImplementation {
        line,
        class: Items::from_vec(class),
        interface: Items::from_vec(interface),
        method: Items::from_vec(name),
    })
}

/// The refusal with its line and texts, or want of memory.
pub(crate) fn refusal(
    alloc: Global,
    checked: &Checked,
    closed: &Closed,
    error: SlotError,
) -> BuildError
    requires together { closed.now.decls ≡ decls_of checked.now }
    requires refused { IsRefusal closed.now error }
    ensures { IsRefused closed.now result }
{
    match error {
        SlotError::Missing {
            class,
            interface,
            method,
        } => match missing(alloc, checked, closed, class, interface, method) {
            Ok(refusal) => refusal,
            Err(_) => BuildError::Memory,
        },
        SlotError::TooMany { class } => BuildError::TooManySlots {
            line: line_of(checked, closed, class),
        },
        SlotError::Memory => BuildError::Memory,
    }
}
