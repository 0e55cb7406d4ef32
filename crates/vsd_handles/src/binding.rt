//! Binding and unbinding handles.
ghost use Rattle.std.specs.Prelude.{◌≡◌, ◌<◌, ◌↔◌, ℕ, true, false, None, IfOk, IsErr, OnErr, position};
ghost use Rattle.vsd_rule.specs.Handles.{own_word};
ghost use Rattle.vsd_rule.specs.Facts.{Knows};
ghost use Rattle.vsd_table.specs.Seating.{view_of, key_of, Belongs};
ghost use Rattle.vsd_trails.specs.UnloadTrails.{binding, unbinding};
ghost use Rattle.vsd_rows.specs.Makes.{Makes};
ghost use Rattle.vsd_handles.specs.Owned.{AreWordsOf};
ghost use Rattle.vsd_handles.specs.Binding.{Binds, Unbinds};
ghost use Rattle.vsd_handles.specs.OwnRows.{IsOwned, IsNext, is_spare, own_row_word};

use crate::owned::Owned;
use thiserror::Error;
use vsd_rows::Hand;
use vsd_table::Shared;
use vsd_words::{Handle, HandleWord};

/// None of the caller's 64 rows can be bound: each is live or worn out.
#[derive(Clone, Copy, PartialEq, Eq, Debug, Error)]
#[error("none of the caller's 64 handle rows can be bound")]
pub struct HandlesFull;

/// Binds the lowest of the caller's rows that is neither live nor worn out to type `t`, below the
/// world's count of types, and raises its generation by one. A row is worn out at the last generation,
/// 4,294,967,295.
///
/// `HandlesFull` comes exactly where there is no such row, and changes nothing.
pub fn bind(
    table: &Shared,
    hand: &mut Hand,
    owned: &mut Owned,
    t: u16,
) -> Result<Handle, HandlesFull>
    requires seat { Belongs table.now hand.old.seated }
    requires words { AreWordsOf owned.old hand.old }
    requires number { t < (key_of table.now).world.types }
    ensures full { IsErr result ↔ (position is_spare owned.old ≡ None) }
    ensures unchanged { OnErr result ((hand.new ≡ hand.old) × (owned.new ≡ owned.old)) }

    ensures next { IfOk result (IsNext (view_of hand.old.seated)) }
    ensures trail { IfOk result (λ h. Makes hand.old.seated hand.new.seated (binding h t) h) }
    ensures step { IfOk result (Binds hand.old.seated hand.new.seated t) }

    // The handle is new to the caller, which then owns it and knows its type.
    ensures word { IfOk result (λ h. own_row_word (view_of hand.new.seated) h.row ≡ own_word h.generation t true) }
    ensures fresh { IfOk result (λ h. (number : ℕ) → ¬ Knows (view_of hand.old.seated).handles h number) }
    ensures owned { IfOk result (IsOwned (view_of hand.new.seated)) }
    ensures known { IfOk result (λ h. Knows (view_of hand.new.seated).handles h t) }

    ensures seat { Belongs table.now hand.new.seated }
    ensures words { AreWordsOf owned.new hand.new }
{
    let Some(index) = owned.spare() else {
        return Err(HandlesFull);
    };
    let row = hand.seated.first_row() + index as u16;
    let generation = owned.word(index).generation + 1;
    hand.seated.bind(table, row, generation, t);
    owned.note(
        index,
        HandleWord {
            generation,
            number: t,
            immortal: false,
            live: true,
        },
    );
    Ok(Handle { row, generation })
}

/// Unbinds a handle that the caller owns: its row is no longer live. The row keeps its generation
/// and number until it is bound again.
pub fn unbind(table: &Shared, hand: &mut Hand, owned: &mut Owned, h: Handle)
    requires seat { Belongs table.now hand.old.seated }
    requires words { AreWordsOf owned.old hand.old }
    requires owned { IsOwned (view_of hand.old.seated) h }
    ensures trail { Makes hand.old.seated hand.new.seated (unbinding h) tt }
    ensures step { Unbinds hand.old.seated hand.new.seated h }
    ensures word { own_row_word (view_of hand.new.seated) h.row
        ≡ own_word h.generation (own_row_word (view_of hand.old.seated) h.row).number false }
    ensures seat { Belongs table.now hand.new.seated }
    ensures words { AreWordsOf owned.new hand.new }
{
    let index = usize::from(h.row - hand.seated.first_row());
    let number = owned.word(index).number;
    hand.seated.unbind(table, h.row, h.generation, number);
    owned.note(
        index,
        HandleWord {
            generation: h.generation,
            number,
            immortal: false,
            live: false,
        },
    );
}
