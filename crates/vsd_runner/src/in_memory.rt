//! A run in memory, which no fault interrupts.
ghost use Rattle.std.specs.Prelude.{◌≡◌, ◌≢◌, ◌⊎◌, ℕ, ◌+◌, ◌≤◌, List, [], ◌++◌, length, take, Option, Some};
ghost use Rattle.vsd_outside.specs.Faults.{Rose};
ghost use Rattle.vsd_runner.specs.Command.{spellings, IsCommand};
ghost use Rattle.vsd_runner.specs.Outcomes.{read_limit, Defines, Interrupted};

use crate::endings::Ended;
use crate::running::run;
use crate::statuses::Status;
use std::alloc::Global;
use vsd_outside::{MemorySink, SureSource};

/// Runs over a text in memory, as `run` does over a source. Into a sink with no call that is listed to fail,
/// and with room for what the words and the text define, exactly that is written, unless memory runs out;
/// a read fault never comes.
pub fn run_in_memory(alloc: Global, words: &[String], text: Vec<u8>, sink: &mut MemorySink) -> Ended
    ensures complete { (status : Status) (bytes : List ℕ)
        → Defines (spellings words.now) (take read_limit text.items) status bytes
        → sink.old.failing ≡ []
        → length sink.old.taken + length bytes ≤ sink.old.capacity
        → ((result.status ≡ status) × (sink.new.taken ≡ sink.old.taken ++ bytes))
        ⊎ (result.status ≡ Status.Memory) }

    // When else each way to end may come.
    ensures no_read_fault { result.status ≢ Status.ReadFault }
    ensures write_fault { result.status ≡ Status.WriteFault → Rose sink.old.faults sink.new.faults }
    ensures bad_words { ¬ IsCommand (spellings words.now)
        → (result.status ≡ Status.Words) ⊎ (result.status ≡ Status.WriteFault) }
    ensures memory { result.status ≡ Status.Memory → (sink.new ≡ sink.old)
        ⊎ ((left : Option (List ℕ)) × Interrupted (spellings words.now) (Some text.items) left
        (Some sink.old.taken) (Some sink.new.taken)) }
{
    run(alloc, words, &mut SureSource::new(text), sink)
}
