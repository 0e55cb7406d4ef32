//! What the operations of a lane do, one after another, with repeats written out.
ghost use Rattle.std.specs.Prelude.{◌≡◌, OnOk, map};
ghost use Rattle.vsd_lanes.specs.Meaning as spec;
ghost use Rattle.vsd_lanes.specs.Meaning.{Does};

use crate::tree::{Halt, Item, Live, Refusal, Running, Written};
use sqlite_items::Items;
use std::alloc::AllocError;
use vsd_ast::{Op, Var};
use vsd_grammar::Cause;

/// The most live variables of a lane.
const MOST_LIVE: usize = 32;

/// Why no operation may be made after these, where earlier lanes left room for so many.
pub(crate) fn begins(room: usize, running: &Running) -> Option<Cause>
    ensures { result ≡ spec.begins room running.now }
{
    if running.ops.len() < room {
        None
    } else {
        Some(Cause::TooManyOperations)
    }
}

/// The live variable of this number.
#[tactic(auto, unfolding(crate::specs::Meaning::find))]
fn find(live: &[Live], variable: u32) -> Option<Live>
    ensures { result ≡ spec.find live.now variable }
{
    for one in live {
        if one.variable == variable {
            return Some(*one);
        }
    }
    None
}

/// Why this variable can't be loaded.
pub(crate) fn fresh(running: &Running, variable: u32) -> Option<Cause>
    ensures { result ≡ spec.fresh running.now.live variable }
{
    if find(running.live.as_slice(), variable).is_some() {
        return Some(Cause::Twice);
    }
    if running.live.len() < MOST_LIVE {
        None
    } else {
        Some(Cause::TooManyLive)
    }
}

/// Why this variable can't be used.
pub(crate) fn known(running: &Running, variable: u32) -> Option<Cause>
    ensures { result ≡ spec.known running.now.live variable }
{
    match find(running.live.as_slice(), variable) {
        Some(_) => None,
        None => Some(Cause::UnknownName),
    }
}

/// Why a cast can't be made of this, or to it.
pub(crate) fn castable(running: &Running, object: Var) -> Option<Cause>
    ensures { result ≡ spec.castable running.now.live object }
{
    match object {
        Var::Host(_) => None,
        Var::Own(variable) => known(running, variable),
    }
}

/// Why no call can be made on this. A host is looked at where the call is read.
pub(crate) fn callable(running: &Running, object: Var) -> Option<Cause>
    ensures { result ≡ spec.callable running.now.live object }
{
    match object {
        Var::Host(_) => None,
        Var::Own(variable) => match find(running.live.as_slice(), variable) {
            None => Some(Cause::UnknownName),
            Some(live) => if live.concrete {
                None
            } else {
                Some(Cause::NotConcrete)
            },
        },
    }
}

/// A refusal for this cause, if there is one, at the token of this index.
fn shown(at: usize, cause: Option<Cause>) -> Result<(), Halt>
    ensures { result ≡ spec.halted (spec.shown at cause) }
{
    match cause {
        Some(cause) => Err(Halt::Refused(Refusal { at, cause })),
        None => Ok(()),
    }
}

/// The live variables without this one.
fn give_up(live: &mut Items<Live>, variable: u32)
    ensures { live.new ≡ spec.without live.old variable }
{
    for place in 0..live.len() {
        if live.as_slice()[place].variable == variable {
            live.remove(place);
            return;
        }
    }
}

fn word_of(written: Written) -> usize
    ensures { result ≡ spec.word_of written }
{
    match written {
        Written::Load { word, .. } => word,
        Written::Unload { word, .. } => word,
        Written::Call { word, .. } => word,
        Written::Cast { word, .. } => word,
    }
}

/// Whether what is live allows an operation.
fn allow(written: Written, running: &Running) -> Result<(), Halt>
    ensures { result ≡ spec.halted (spec.allowed written running.now.live) }
{
    match written {
        Written::Load { at, variable, .. } => shown(at, fresh(running, variable)),
        Written::Unload { at, variable, .. } => shown(at, known(running, variable)),
        Written::Call { at, object, .. } => shown(at, callable(running, object)),
        Written::Cast {
            at,
            source,
            target_at,
            target,
            ..
        } => {
            shown(at, castable(running, source))?;
            shown(target_at, castable(running, target))
        }
    }
}

fn op_of(written: Written) -> Op
    ensures { result ≡ spec.op_of written }
{
    match written {
        Written::Load { variable, root, .. } => Op::Load { variable, root },
        Written::Unload { variable, .. } => Op::Unload { variable },
        Written::Call { site, object, .. } => Op::Call { site, object },
        Written::Cast { source, target, .. } => Op::Cast { source, target },
    }
}

/// Notes what an operation leaves live.
fn change(written: Written, live: &mut Items<Live>) -> Result<(), AllocError>
    ensures { OnOk result (live.new ≡ spec.live_after written live.old) }
{
    match written {
        Written::Load {
            variable,
            concrete,
            ..
        } => live.push(Live { variable, concrete }),
        Written::Unload { variable, .. } => {
            give_up(live, variable);
            Ok(())
        }
        Written::Call { .. } => Ok(()),
        Written::Cast { .. } => Ok(()),
    }
}

/// Does an operation that is allowed.
pub(crate) fn perform(written: Written, running: &mut Running) -> Result<(), AllocError>
    ensures { OnOk result (running.new ≡ spec.does written running.old) }
{
    change(written, &mut running.live)?;
    running.ops.push(op_of(written))
}

/// Makes an operation. A refusal and want of memory leave what was there in an unknown state.
#[tactic(auto, unfolding(crate::specs::Meaning::once))]
pub(crate) fn once(room: usize, written: Written, running: &mut Running) -> Result<(), Halt>
    ensures { Does (spec.once room written running.old) result running.new }
{
    shown(word_of(written), begins(room, running))?;
    allow(written, running)?;
    perform(written, running)?;
    Ok(())
}

/// Makes the operations of an item.
#[cycle(again)]
fn one(room: usize, item: &Item, running: &mut Running) -> Result<(), Halt>
    ensures { Does (spec.makes room (spec.written_of item.now) running.old) result running.new }
{
    match item {
        Item::Once(written) => once(room, *written, running),
        Item::Repeat { times, body } => rounds(room, *times, body, running),
    }
}

/// Makes the operations of items, one after another.
#[cycle(again)]
pub(crate) fn sequence(room: usize, items: &Items<Item>, running: &mut Running) -> Result<(), Halt>
    ensures { Does (spec.makes room (spec.joined (map spec.written_of items.now)) running.old) result running.new }
{
    for item in items.as_slice() {
        one(room, item, running)?;
    }
    Ok(())
}

/// Makes the operations of a repeat's body so many times.
///
/// The first that can't be made ends all rounds.
#[cycle(again)]
pub(crate) fn rounds(
    room: usize,
    times: u32,
    body: &Items<Item>,
    running: &mut Running,
) -> Result<(), Halt>
    ensures { Does (spec.makes room (spec.times_of times (spec.joined (map spec.written_of body.now))) running.old)
        result running.new }
{
    for _round in 0..times {
        sequence(room, body, running)?;
    }
    Ok(())
}
