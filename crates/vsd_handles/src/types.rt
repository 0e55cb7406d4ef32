//! The type that a handle names.
ghost use Rattle.std.specs.Prelude.{◌≡◌, ◌<◌, ℕ, IfOk, Ok};
ghost use Rattle.vsd_rule.specs.Layout.{handle_rows};
ghost use Rattle.vsd_rule.specs.Handles.{host_word};
ghost use Rattle.vsd_rule.specs.Facts.{IsOwn, Knows};
ghost use Rattle.vsd_table.specs.Seating.{view_of, key_of, Belongs};
ghost use Rattle.vsd_handles.specs.OwnRows.{own_row_word};
ghost use Rattle.vsd_trails.specs.Words.{type_by};
ghost use Rattle.vsd_trails.specs.RowTrails.{typing};
ghost use Rattle.vsd_rows.specs.Makes.{Makes};
ghost use Rattle.vsd_handles.specs.Types.{LoadsType};

use vsd_rows::Hand;
use vsd_table::Shared;
use vsd_trails::Unloaded;
use vsd_words::Handle;

/// The number of the type that the handle names now, by one load of its row's handle word.
/// `Unloaded` comes exactly where that word, carried in the error with the handle, has another
/// generation or is not live.
pub fn type_of(table: &Shared, hand: &mut Hand, h: Handle) -> Result<u16, Unloaded>
    requires seat { Belongs table.now hand.old.seated }
    requires row { h.row < handle_rows (key_of table.now).sizes }
    ensures trail { Makes hand.old.seated hand.new.seated (typing h) result }
    ensures loads { LoadsType hand.old.seated hand.new.seated h result }
    ensures seat { Belongs table.now hand.new.seated }

    // What is learnt agrees with what is known.
    ensures learnt { IfOk result (Knows (view_of hand.new.seated).handles h) }
    ensures known { (number : ℕ) → Knows (view_of hand.old.seated).handles h number → IfOk result (λ n. n ≡ number) }

    // A generation above 0 has a type of the world.
    ensures in_world { 0 < h.generation → IfOk result (λ n. n < (key_of table.now).world.types) }

    // Nobody else changes the caller's own rows, and nobody a host's.
    ensures own { IsOwn (view_of hand.old.seated) h.row →
        result ≡ type_by h (own_row_word (view_of hand.old.seated) h.row) }
    ensures host { h.row < (key_of table.now).sizes.hosts →
        result ≡ type_by h (host_word (key_of table.now) h.row) }
{
    let found = hand.seated.handle_word(table, h.row);
    if found.live && found.generation == h.generation {
        Ok(found.number)
    } else {
        Err(Unloaded { handle: h, found })
    }
}
