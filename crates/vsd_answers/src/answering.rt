//! Answers from plain tables, lane after lane.
ghost use Rattle.std.specs.Prelude.{◌≡◌, ◌<◌, [], ◌++◌, All, EachIndex, map, length, slice_index, IfOk, OnOk};
ghost use Rattle.vsd_ast.specs.Scripts.{IsHost, IsLane};
ghost use Rattle.vsd_answers.specs.Answers.{CanAnswer, answer_by, answers_after, answers_of, world};
ghost use Rattle.vsd_answers.specs.Held.{CanAnswerOne, IsInReach, held_after, held_type};

use std::alloc::{AllocError, Global};
use vsd_ast::{Host, Lane, Op, Script, Var};
use vsd_rule::Resolver;

/// What each lane of a script answers, call by call and cast by cast, repeats written out. `types` has the number of each
/// root's type, and `tokens` the token of each site. A call's answer is 0 where the slot is missing, else one more than a
/// method's number; a cast's answer is 1 for yes and 0 for no. The error is want of memory.
pub fn answer_lanes<R: Resolver>(
    alloc: Global,
    script: &Script,
    types: &[u16],
    tokens: &[u16],
    resolver: &R,
) -> Result<Vec<Vec<u32>>, AllocError>
    requires { CanAnswer (world (R.types resolver.now) (R.tokens resolver.now) (R.sel resolver.now) (R.cmp resolver.now)) script.now types.now tokens.now }
    ensures { IfOk result (λ answers. map (λ lane. lane.items) answers.items
        ≡ answers_of (world (R.types resolver.now) (R.tokens resolver.now) (R.sel resolver.now) (R.cmp resolver.now)) script.now types.now tokens.now) }
{
    let hosts = script.hosts.as_slice();
    let mut answers = Vec::with_capacity(alloc, script.lanes.len())?;
    for lane in script.lanes.as_slice() {
        answers.push(answer_lane(alloc, lane, hosts, types, tokens, resolver)?)?;
    }
    Ok(answers)
}

/// What one lane answers. The types that its variables name stand by the variables' numbers.
fn answer_lane<R: Resolver>(
    alloc: Global,
    lane: &Lane,
    hosts: &[Host],
    types: &[u16],
    tokens: &[u16],
    resolver: &R,
) -> Result<Vec<u32>, AllocError>
    requires lane { IsLane (length types.now) (length tokens.now) (length hosts.now) lane.now }
    requires hosts { All (IsHost (length types.now)) hosts.now }
    requires types { EachIndex types.now (λ root. slice_index types.now root < R.types resolver.now) }
    requires tokens { EachIndex tokens.now (λ site. slice_index tokens.now site < R.tokens resolver.now) }
    ensures { IfOk result (λ answers. answers.items ≡ answers_after hosts.now types.now
        (world (R.types resolver.now) (R.tokens resolver.now) (R.sel resolver.now) (R.cmp resolver.now))
        tokens.now [] lane.now.ops) }
{
    let mut kept = vec![in alloc; 0u16; lane.names.len()]?;
    let held = kept.as_mut_slice();
    let mut answers = Vec::with_capacity(alloc, lane.ops.len())?;
    for op in lane.ops.as_slice() {
        answer(*op, hosts, types, tokens, resolver, held, &mut answers)?;
    }
    Ok(answers)
}

/// Adds what one operation answers, and keeps what its variable names from then on.
fn answer<R: Resolver>(
    op: Op,
    hosts: &[Host],
    types: &[u16],
    tokens: &[u16],
    resolver: &R,
    held: &mut [u16],
    answers: &mut Vec<u32>,
) -> Result<(), AllocError>
    requires { CanAnswerOne (R.types resolver.now) (R.tokens resolver.now) hosts.now types.now tokens.now held.old op }
    ensures held { held.new ≡ held_after types.now held.old op }
    ensures answers { OnOk result (answers.new.items ≡ answers.old.items ++ answer_by
        (world (R.types resolver.now) (R.tokens resolver.now) (R.sel resolver.now) (R.cmp resolver.now))
        tokens.now (held_type hosts.now types.now held.old) op) }
{
    match op {
        Op::Load { variable, root } => held[variable as usize] = types[root as usize],
        Op::Unload { .. } => {}
        Op::Call { site, object } => {
            let t = type_of(object, hosts, types, held);
            answers.push(resolver.select(t, tokens[usize::from(site)]))?;
        }
        Op::Cast { source, target } => {
            let t = type_of(source, hosts, types, held);
            let u = type_of(target, hosts, types, held);
            answers.push(u32::from(resolver.compat(t, u)))?;
        }
    }
    Ok(())
}

/// The type that a variable names.
fn type_of(variable: Var, hosts: &[Host], types: &[u16], held: &[u16]) -> u16
    requires { IsInReach hosts.now types.now held.now variable }
    ensures { result ≡ held_type hosts.now types.now held.now variable }
{
    match variable {
        Var::Host(host) => types[hosts[usize::from(host)].root as usize],
        Var::Own(variable) => held[variable as usize],
    }
}
