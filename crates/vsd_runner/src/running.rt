//! The top call.
ghost use Rattle.std.specs.Prelude.{◌≡◌, ◌≢◌, ◌⊎◌, ℕ, ◌<◌, ◌≤◌, List, Some, length};
ghost use Rattle.std.specs.Io.KnownBytes.{append_known};
ghost use Rattle.vsd_outside.specs.Faults.{Rose};
ghost use Rattle.vsd_runner.specs.Command.{spellings, IsCommand, words_line};
ghost use Rattle.vsd_runner.specs.Outcomes.{text_read, Defines, EndsAs, ReadCounted, WriteCounted, Headline, Refuses, CutShort, Interrupted, Outcome};

use crate::answers::write_for;
use crate::command::is_command;
use crate::endings::Ended;
use crate::statuses::Status;
use std::alloc::Global;
use vsd_outside::{Failed, ReadError, Sink, Source, read_up_to, write_whole};
use vsd_refusals::Refusal;
use vsd_text::TEXT_LIMIT;

/// How many bytes are read at most: one more than a text may have.
const READ_LIMIT: usize = TEXT_LIMIT + 1;

/// Reads the words, then a text from the source to its end or to one byte more than a text may have, and
/// writes what the text answers, or the line of its first refusal. Nothing is written before all answers
/// are known; then they are written in pages of about 64 KB. Words that are no command are answered with
/// `refused words`, and the source isn't read then.
///
/// Every way to end is a status. After a read fault nothing was written; after a write fault the sink took
/// a prefix of what was to be written, and not all; at want of memory nothing, or a first part of the
/// answers.
pub fn run<S: Source, K: Sink>(
    alloc: Global,
    words: &[String],
    source: &mut S,
    sink: &mut K,
) -> Ended
    // When each status may come, and what it says. `Done` is the headline: the sink took exactly the
    // answers of the text.
    ensures done { result.status ≡ Status.Done
        → Headline (spellings words.now) (S.left source.old) (S.left source.new)
        (K.taken sink.old) (K.taken sink.new) }
    ensures words { result.status ≡ Status.Words → (¬ IsCommand (spellings words.now))
        × (K.taken sink.new ≡ append_known (K.taken sink.old) words_line) }
    ensures refused { (refusal : Refusal) → result.status ≡ Status.Refused refusal
        → Refuses (spellings words.now) (S.left source.old) (S.left source.new)
        (K.taken sink.old) (K.taken sink.new) refusal }
    ensures read_fault { result.status ≡ Status.ReadFault → IsCommand (spellings words.now)
        × Rose (S.faults source.old) (S.faults source.new) × (sink.new ≡ sink.old) }
    ensures write_fault { result.status ≡ Status.WriteFault
        → Rose (K.faults sink.old) (K.faults sink.new)
        × CutShort (spellings words.now) (S.left source.old) (S.left source.new)
        (K.taken sink.old) (K.taken sink.new) }
    ensures memory { result.status ≡ Status.Memory → IsCommand (spellings words.now)
        × ((sink.new ≡ sink.old) ⊎ Interrupted (spellings words.now) (S.left source.old) (S.left source.new)
        (K.taken sink.old) (K.taken sink.new)) }

    // When each must come. A fault is told wherever it is counted: so at every other status both counts
    // are what they were.
    ensures read_fault_must { S.faults source.old < S.faults source.new
        → result.status ≡ Status.ReadFault }
    ensures write_fault_must { K.faults sink.old < K.faults sink.new
        → result.status ≡ Status.WriteFault }
    ensures reads_never_fall { S.faults source.old ≤ S.faults source.new }
    ensures writes_never_fall { K.faults sink.old ≤ K.faults sink.new }

    // Words that are no command end as such or with a write fault, and nothing is read.
    ensures bad_words { ¬ IsCommand (spellings words.now)
        → ((result.status ≡ Status.Words) ⊎ (result.status ≡ Status.WriteFault))
        × (source.new ≡ source.old) }

    // What the words and the text define comes, unless a fault or want of memory came in its place.
    ensures as_defined { (text : List ℕ) (status : Status) (bytes : List ℕ)
        → text_read (S.left source.old) ≡ Some text
        → Defines (spellings words.now) text status bytes
        → EndsAs (K.taken sink.old) (K.taken sink.new) status bytes result.status }
    ensures complete { (text : List ℕ) (status : Status) (bytes : List ℕ)
        → text_read (S.left source.old) ≡ Some text
        → Defines (spellings words.now) text status bytes
        → ¬ Rose (S.faults source.old) (S.faults source.new)
        → ¬ Rose (K.faults sink.old) (K.faults sink.new)
        → ((result.status ≡ status)
        × (K.taken sink.new ≡ append_known (K.taken sink.old) bytes))
        ⊎ (result.status ≡ Status.Memory) }

    // No fault comes from a source that never fails, nor from a sink that has room for what is defined.
    ensures sure_source { S.never_fails source.old → result.status ≢ Status.ReadFault }
    ensures sure_sink { (text : List ℕ) (status : Status) (bytes : List ℕ) (size : ℕ)
        → text_read (S.left source.old) ≡ Some text
        → Defines (spellings words.now) text status bytes
        → K.has_room sink.old size → length bytes ≤ size → result.status ≢ Status.WriteFault }
{
    Ended {
        status: status_of(alloc, words, source, sink),
    }
}

/// How the run ends, in one relation, and which count rose.
fn status_of<S: Source, K: Sink>(
    alloc: Global,
    words: &[String],
    source: &mut S,
    sink: &mut K,
) -> Status
    ensures outcome { Outcome (spellings words.now)
        (S.left source.old) (S.left source.new) (K.taken sink.old) (K.taken sink.new)
        (source.new ≡ source.old) (sink.new ≡ sink.old)
        (λ needed. (size : ℕ) → K.has_room sink.old size → size < needed) result }
    ensures reads { ReadCounted (Rose (S.faults source.old) (S.faults source.new))
        (S.faults source.new ≡ S.faults source.old) result }
    ensures writes { WriteCounted (Rose (K.faults sink.old) (K.faults sink.new))
        (K.faults sink.new ≡ K.faults sink.old) result }
    ensures reads_never_fall { S.faults source.old ≤ S.faults source.new }
    ensures writes_never_fall { K.faults sink.old ≤ K.faults sink.new }
    ensures sure_source { S.never_fails source.old → result ≢ Status.ReadFault }
{
    if !is_command(words) {
        return match write_whole(sink, b"refused words\n") {
            Ok(()) => Status::Words,
            Err(Failed) => Status::WriteFault,
        };
    }
    let text = match read_up_to(alloc, source, READ_LIMIT) {
        Ok(text) => text,
        Err(ReadError::Failed) => return Status::ReadFault,
        Err(ReadError::Memory) => return Status::Memory,
    };
    write_for(alloc, &text, sink)
}
