//! All lines, lane after lane.
ghost use Rattle.std.specs.Prelude.{◌≡◌, ℕ, ◌-◌, ◌<◌, ◌≤◌, ◌++◌, [], EachIndex, map, length, decimal, slice_index, OnOk, IfErr, IfOk};
ghost use Rattle.std.specs.Io.KnownBytes.{append_known};
ghost use Rattle.vsd_ast.specs.Scripts.{IsLane};
ghost use Rattle.vsd_outside.specs.Faults.{Rose};
ghost use Rattle.vsd_lines.specs.Lines.{AreAnswers, CanWrite, IsAnswerAt, asks, host_names, lane_text, op_text, site_names, text_at, text_of};
ghost use Rattle.vsd_lines.specs.Names.{IsWritable};
ghost use Rattle.vsd_lines.specs.Moving.{AtError, Carries, CutShort, Front};

use crate::errors::LinesError;
use crate::lines::{add_call, add_cast, name_of};
use crate::pages::{PAGE, finish, turn};
use itoa::Buffer;
use std::alloc::{AllocError, Global};
use vsd_ast::{Bytes, Lane, Op, Script};
use vsd_outside::Sink;

/// The room of a page beyond its bytes, so that a line needs none of its own: more than a line's longest names.
const LINE: usize = 4_096;

/// Writes the lines of a script's answers, in pages of about 64 KB: for each lane in order, and in it for each call
/// and cast, `<lane> <site> <method>`, `<lane> <site> missing <slot>`, or `<lane> <source> as <target> yes` or `no`.
/// A call's answer is 0 where the slot is missing, else one more than the method's number; a cast's is 1 for yes and
/// 0 for no. `site_tokens` has the token of each site, by which `slot_texts` has the slots' texts.
///
/// After an error the sink took a first part of the lines: at `Memory`, want of memory, perhaps nothing or all, at
/// `Failed`, which comes exactly where the sink counted a fault, not all.
pub fn write_lines<K: Sink>(
    alloc: Global,
    script: &Script,
    site_tokens: &[u16],
    method_texts: &[Bytes],
    slot_texts: &[Bytes],
    answers: &[Vec<u32>],
    sink: &mut K,
) -> Result<(), LinesError>
    requires { CanWrite script.now site_tokens.now (length method_texts.now) (length slot_texts.now) (map (λ lane. lane.items) answers.now) }
    ensures ok { OnOk result (K.taken sink.new ≡ append_known (K.taken sink.old)
        (text_of script.now site_tokens.now (text_at method_texts.now) (text_at slot_texts.now) (map (λ lane. lane.items) answers.now))) }
    ensures part { IfErr result (AtError
        (CutShort (K.taken sink.old) (K.taken sink.new) (K.has_room sink.old)
        (text_of script.now site_tokens.now (text_at method_texts.now) (text_at slot_texts.now) (map (λ lane. lane.items) answers.now)))
        (Front (K.taken sink.old) (K.taken sink.new)
        (text_of script.now site_tokens.now (text_at method_texts.now) (text_at slot_texts.now) (map (λ lane. lane.items) answers.now)))) }

    // A fault is counted exactly where a write failed.
    ensures counted { IfErr result (AtError (Rose (K.faults sink.old) (K.faults sink.new)) (K.faults sink.new ≡ K.faults sink.old)) }
    ensures no_fault { OnOk result (K.faults sink.new ≡ K.faults sink.old) }
    ensures never_falls { K.faults sink.old ≤ K.faults sink.new }

    // Room shrinks by what was written, at most.
    ensures room_left { OnOk result ((size : ℕ) → K.has_room sink.old size → K.has_room sink.new (size - length
        (text_of script.now site_tokens.now (text_at method_texts.now) (text_at slot_texts.now) (map (λ lane. lane.items) answers.now)))) }
{
    let mut page = Vec::with_capacity(alloc, PAGE + LINE)?;
    let lanes = script.lanes.as_slice();
    for (number, lane) in lanes.iter().enumerate() {
        let said = answers[number].as_slice();
        write_lane(
            script,
            number,
            lane,
            site_tokens,
            method_texts,
            slot_texts,
            said,
            sink,
            &mut page,
        )?;
    }
    finish(sink, &mut page)?;
    Ok(())
}

/// Adds the lines of one lane to the page, which is written whenever it is full.
fn write_lane<K: Sink>(
    script: &Script,
    number: usize,
    lane: &Lane,
    site_tokens: &[u16],
    method_texts: &[Bytes],
    slot_texts: &[Bytes],
    answers: &[u32],
    sink: &mut K,
    page: &mut Vec<u8>,
) -> Result<(), LinesError>
    requires lane { IsLane (length script.now.roots) (length script.now.sites) (length script.now.hosts) lane.now }
    requires tokens_count { length site_tokens.now ≡ length script.now.sites }
    requires tokens_in { EachIndex site_tokens.now (λ site. slice_index site_tokens.now site < length slot_texts.now) }
    requires answers { AreAnswers (length method_texts.now) lane.now.ops answers.now }
    ensures carries { OnOk result (Carries (K.taken sink.old) (K.taken sink.new) (K.has_room sink.old) (K.has_room sink.new)
        page.old.items page.new.items
        (lane_text (site_names script.now) (host_names script.now) site_tokens.now (text_at method_texts.now) (text_at slot_texts.now)
        (decimal number) lane.now.names lane.now.ops answers.now)) }
    ensures part { IfErr result (AtError
        (CutShort (K.taken sink.old) (K.taken sink.new) (K.has_room sink.old) (page.old.items
        ++ lane_text (site_names script.now) (host_names script.now) site_tokens.now (text_at method_texts.now) (text_at slot_texts.now)
        (decimal number) lane.now.names lane.now.ops answers.now))
        (Front (K.taken sink.old) (K.taken sink.new) (page.old.items
        ++ lane_text (site_names script.now) (host_names script.now) site_tokens.now (text_at method_texts.now) (text_at slot_texts.now)
        (decimal number) lane.now.names lane.now.ops answers.now))) }
    ensures counted { IfErr result (AtError (Rose (K.faults sink.old) (K.faults sink.new)) (K.faults sink.new ≡ K.faults sink.old)) }
    ensures no_fault { OnOk result (K.faults sink.new ≡ K.faults sink.old) }
    ensures never_falls { K.faults sink.old ≤ K.faults sink.new }
{
    let mut buffer = Buffer::new();
    let digits = buffer.format(number).as_bytes();
    let mut at = 0;
    for op in lane.ops.as_slice() {
        at += add_line(
            page,
            digits,
            script,
            lane,
            site_tokens,
            method_texts,
            slot_texts,
            *op,
            answers,
            at,
        )?;
        turn(sink, page)?;
    }
    Ok(())
}

/// Adds the line of an operation, whose answer stands at this place, and gives how many answers it has.
fn add_line(
    page: &mut Vec<u8>,
    digits: &[u8],
    script: &Script,
    lane: &Lane,
    site_tokens: &[u16],
    method_texts: &[Bytes],
    slot_texts: &[Bytes],
    op: Op,
    answers: &[u32],
    at: usize,
) -> Result<usize, AllocError>
    requires names { IsWritable (length script.now.sites) script.now.hosts site_tokens.now (length slot_texts.now) lane.now.names op }
    requires answer { IsAnswerAt (length method_texts.now) op answers.now at }
    ensures asks { IfOk result (λ n. n ≡ asks op) }
    ensures line { OnOk result (page.new.items ≡ page.old.items
        ++ op_text (site_names script.now) (host_names script.now) site_tokens.now (text_at method_texts.now) (text_at slot_texts.now)
        digits.now lane.now.names op (slice_index answers.now at)) }
{
    match op {
        Op::Load { .. } | Op::Unload { .. } => Ok(0),
        Op::Call { site, .. } => {
            let name = script.sites.as_slice()[usize::from(site)].name.as_slice();
            let slot = slot_texts[usize::from(site_tokens[usize::from(site)])].as_slice();
            add_call(page, digits, name, answers[at], method_texts, slot)?;
            Ok(1)
        }
        Op::Cast { source, target } => {
            let hosts = script.hosts.as_slice();
            let names = lane.names.as_slice();
            let source = name_of(source, hosts, names);
            add_cast(
                page,
                digits,
                source,
                name_of(target, hosts, names),
                answers[at],
            )?;
            Ok(1)
        }
    }
}
