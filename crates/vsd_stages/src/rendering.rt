//! The text of answers by tables.
ghost use Rattle.std.specs.Prelude.{◌≡◌, ℕ, ◌≤◌, List, map, OnOk, IfErr, IfOk};
ghost use Rattle.std.specs.Io.KnownBytes.{append_known};
ghost use Rattle.vsd_ast.specs.Scripts.{IsWellFormedScript};
ghost use Rattle.vsd_outside.specs.Faults.{Rose};
ghost use Rattle.vsd_types.specs.Numbers.{IsDistinct};
ghost use Rattle.vsd_lines.specs.Moving.{AtError, CutShort, Front};
ghost use Rattle.vsd_stages.specs.Named.{IsNaming};
ghost use Rattle.vsd_stages.specs.Rendering.{AnswerLanes, AreTablesOf, IsRendered};

use crate::stages::tokens_of;
use crate::texts::{method_texts, slot_texts};
use std::alloc::{AllocError, Global};
use vsd_ast::{Bytes, Script};
use vsd_itable::Tables;
use vsd_lines::{LinesError, write_lines};
use vsd_outside::Sink;
use vsd_types::Closed;

/// What the lines of a script name.
#[derive(Drop)]
struct Naming {
    /// The token of each site.
    sites: Vec<u16>,
    /// The texts of the methods that are selected, by the methods' numbers.
    methods: Vec<Bytes>,
    /// The texts of the tokens' slots.
    slots: Vec<Bytes>,
}

/// No type stands twice in a closed list, so each root has one number.
fn have_one_number(closed: &Closed)
    ensures { IsDistinct closed.now.types }
{
    closed.count();
}

/// What the lines of a script name, by its tables.
fn name_all(alloc: Global, script: &Script, tables: &Tables) -> Result<Naming, AllocError>
    requires formed { IsWellFormedScript script.now }
    requires tables { AreTablesOf tables.now script.now }
    ensures { IfOk result (λ named. IsNaming tables.now script.now named.sites.items named.methods.items named.slots.items) }
{
    let closed = tables.closed();
    have_one_number(closed);
    let (_types, tokens) = tokens_of(alloc, closed, script)?;
    let count = tokens.list.len() as u16;
    let methods = method_texts(alloc, tables, count)?;
    let slots = slot_texts(alloc, tables, count)?;
    Ok(Naming {
        sites: tokens.sites,
        methods,
        slots,
    })
}

/// Writes the lines of a script's answers, lane by lane, in pages of about 64 KB; they name methods and slots by their texts
/// in the tables. `answers` has for each lane one answer per call and cast: of a call 0 where the slot is missing, else one
/// more than the number of a method that is selected; of a cast 1 for yes and 0 for no.
///
/// After an error the sink took a first part of the lines: at `Memory`, want of memory, perhaps nothing or all, at `Failed`,
/// which comes exactly where the sink counted a fault, not all.
pub fn render<K: Sink>(
    alloc: Global,
    script: &Script,
    tables: &Tables,
    answers: &[Vec<u32>],
    sink: &mut K,
) -> Result<(), LinesError>
    requires formed { IsWellFormedScript script.now }
    requires tables { AreTablesOf tables.now script.now }
    requires answers { AnswerLanes tables.now script.now.lanes (map (λ lane. lane.items) answers.now) }
    ensures ok { OnOk result ((text : List ℕ) × IsRendered tables.now script.now (map (λ lane. lane.items) answers.now) text
        × (K.taken sink.new ≡ append_known (K.taken sink.old) text)) }
    ensures part { IfErr result (λ error. (text : List ℕ) × IsRendered tables.now script.now (map (λ lane. lane.items) answers.now) text
        × AtError (CutShort (K.taken sink.old) (K.taken sink.new) (K.has_room sink.old) text)
        (Front (K.taken sink.old) (K.taken sink.new) text) error) }

    // A fault is counted exactly where a write failed.
    ensures counted { IfErr result (AtError (Rose (K.faults sink.old) (K.faults sink.new)) (K.faults sink.new ≡ K.faults sink.old)) }
    ensures no_fault { OnOk result (K.faults sink.new ≡ K.faults sink.old) }
    ensures never_falls { K.faults sink.old ≤ K.faults sink.new }
{
    let named = name_all(alloc, script, tables)?;
    write_lines(
        alloc,
        script,
        &named.sites,
        &named.methods,
        &named.slots,
        answers,
        sink,
    )
}
