//! What is read of a lane so far, and the names in its operations.
ghost use Rattle.std.specs.Prelude.{◌≡◌, ◌≢◌, IfOk};
ghost use Rattle.vsd_grammar.specs.Grammar.{run};
ghost use Rattle.vsd_grammar.specs.Productions.{Reads};
ghost use Rattle.vsd_lanes.specs.Setting.{setting_of};
ghost use Rattle.vsd_lanes.specs.Names as spec;

use crate::ground::Ground;
use crate::meaning::{begins, callable, castable, fresh, known};
use crate::tree::Running;
use crate::variables::Variables;
use std::alloc::AllocError;
use vsd_ast::Var;
use vsd_grammar::{Cause, Cursor, Stop, spelled_name};
use vsd_terms::Terms;

/// What is read of a lane so far.
#[derive(Debug, Drop)]
pub struct Reading {
    /// The names of the variables that were loaded.
    pub variables: Variables,
    /// The script's roots so far.
    pub roots: Terms,
    pub running: Running,
}

/// A name that a variable is loaded under.
#[derive(Debug, Drop)]
pub struct Fresh {
    pub lane: Reading,
    /// The index of the name.
    pub at: usize,
    pub variable: u32,
}

/// A variable that is named, by a token of this index.
#[derive(Clone, Copy, Debug, PartialEq, Eq, Drop)]
pub struct Own {
    pub at: usize,
    pub variable: u32,
}

/// An object that is named, by a token of this index.
#[derive(Clone, Copy, Debug, PartialEq, Eq, Drop)]
pub struct Object {
    pub at: usize,
    pub object: Var,
}

/// What an object is named for.
#[derive(Clone, Copy, Debug, PartialEq, Eq, Drop)]
pub enum Role {
    /// A call on it.
    Call,
    /// A cast of it, or to it.
    Cast,
}

/// A refusal of the token at hand for this cause, if there is one. Takes no memory.
pub fn show(cursor: &Cursor<'_>, cause: Option<Cause>) -> Result<(), Stop>
    ensures reads { Reads (run _ (spec.shows cause) cursor.now) result cursor.now }
    ensures sure { result ≢ Err Stop.Memory }
{
    match cause {
        Some(cause) => Err(cursor.refuse(cause)),
        None => Ok(()),
    }
}

/// The word of an operation, which is at hand: its index.
#[tactic(auto, unfolding(crate::specs::Names::begun))]
pub(crate) fn begin(
    cursor: &mut Cursor<'_>,
    ground: &Ground<'_>,
    lane: &Reading,
) -> Result<usize, Stop>
    ensures { Reads (run _ (spec.begun (setting_of ground.now) lane.now) cursor.old) result cursor.new }
{
    let word = cursor.index();
    show(cursor, begins(ground.room, &lane.running))?;
    cursor.pass()?;
    Ok(word)
}

/// Why a name can't be loaded.
fn fresh_cause(ground: &Ground<'_>, lane: &Reading, name: &[u8]) -> Option<Cause>
    ensures { result ≡ spec.fresh_cause (setting_of ground.now) lane.now name.now }
{
    match ground.host(name) {
        Some(_) => Some(Cause::Twice),
        None => fresh(&lane.running, lane.variables.number(name)),
    }
}

/// The lane with a name that has a number.
fn with_name(lane: Reading, at: usize, name: &[u8]) -> Result<Fresh, AllocError>
    ensures { IfOk result (λ f. f ≡ spec.fresh_of lane at name.now) }
{
    let variable = lane.variables.number(name);
    let Reading {
        mut variables,
        roots,
        running,
    } = lane;
    variables.add(name)?;
    let lane = Reading {
        variables,
        roots,
        running,
    };
    Ok(Fresh { lane, at, variable })
}

/// A name under which a variable can be loaded.
#[tactic(auto, unfolding(crate::specs::Names::fresh_name))]
pub(crate) fn fresh_name(
    cursor: &mut Cursor<'_>,
    ground: &Ground<'_>,
    lane: Reading,
) -> Result<Fresh, Stop>
    ensures { Reads (run _ (spec.fresh_name (setting_of ground.now) lane) cursor.old) result cursor.new }
{
    let at = cursor.index();
    let name = spelled_name(cursor)?;
    show(cursor, fresh_cause(ground, &lane, name))?;
    cursor.pass()?;
    Ok(with_name(lane, at, name)?)
}

/// The variable of this name, which is live.
fn own_of(ground: &Ground<'_>, lane: &Reading, name: &[u8]) -> Result<u32, Cause>
    ensures { result ≡ spec.own_of (setting_of ground.now) lane.now name.now }
{
    match ground.host(name) {
        Some(_) => Err(Cause::UnknownName),
        None => match lane.variables.find(name) {
            None => Err(Cause::UnknownName),
            Some(variable) => match known(&lane.running, variable) {
                None => Ok(variable),
                Some(cause) => Err(cause),
            },
        },
    }
}

/// The name of a variable that is live.
#[tactic(auto, unfolding(crate::specs::Names::own_name))]
pub(crate) fn own_name(
    cursor: &mut Cursor<'_>,
    ground: &Ground<'_>,
    lane: &Reading,
) -> Result<Own, Stop>
    ensures { Reads (run _ (spec.own_name (setting_of ground.now) lane.now) cursor.old) result cursor.new }
{
    let at = cursor.index();
    let name = spelled_name(cursor)?;
    match own_of(ground, lane, name) {
        Ok(variable) => {
            cursor.pass()?;
            Ok(Own { at, variable })
        }
        Err(cause) => Err(cursor.refuse(cause)),
    }
}

/// Why a host can't be used so.
fn host_cause(ground: &Ground<'_>, lane: &Reading, role: Role, host: u16) -> Option<Cause>
    ensures { result ≡ spec.host_cause (setting_of ground.now) lane.now role host }
{
    match role {
        Role::Cast => None,
        Role::Call => {
            if ground.is_concrete_host(&lane.roots, host) {
                None
            } else {
                Some(Cause::NotConcrete)
            }
        }
    }
}

/// Why an object can't be used so, as far as what is live tells.
fn live_cause(running: &Running, role: Role, object: Var) -> Option<Cause>
    ensures { result ≡ spec.live_cause running.now role object }
{
    match role {
        Role::Cast => castable(running, object),
        Role::Call => callable(running, object),
    }
}

/// What a name means: a host, or a variable of the lane.
fn meant(ground: &Ground<'_>, lane: &Reading, name: &[u8]) -> Option<Var>
    ensures { result ≡ spec.meant (setting_of ground.now) lane.now name.now }
{
    match ground.host(name) {
        Some(host) => Some(Var::Host(host)),
        None => match lane.variables.find(name) {
            Some(variable) => Some(Var::Own(variable)),
            None => None,
        },
    }
}

/// Why an object can't be used so.
fn object_cause(ground: &Ground<'_>, lane: &Reading, role: Role, object: Var) -> Option<Cause>
    ensures { result ≡ spec.object_cause (setting_of ground.now) lane.now role object }
{
    match object {
        Var::Host(host) => host_cause(ground, lane, role, host),
        Var::Own(_) => live_cause(&lane.running, role, object),
    }
}

/// The object of this name.
fn object_of(ground: &Ground<'_>, lane: &Reading, role: Role, name: &[u8]) -> Result<Var, Cause>
    ensures { result ≡ spec.object_of (setting_of ground.now) lane.now role name.now }
{
    match meant(ground, lane, name) {
        None => Err(Cause::UnknownName),
        Some(object) => match object_cause(ground, lane, role, object) {
            None => Ok(object),
            Some(cause) => Err(cause),
        },
    }
}

/// The name of a host, or of a variable that is live.
#[tactic(auto, unfolding(crate::specs::Names::object_name))]
pub(crate) fn object_name(
    cursor: &mut Cursor<'_>,
    ground: &Ground<'_>,
    lane: &Reading,
    role: Role,
) -> Result<Object, Stop>
    ensures { Reads (run _ (spec.object_name (setting_of ground.now) lane.now role) cursor.old) result cursor.new }
{
    let at = cursor.index();
    let name = spelled_name(cursor)?;
    match object_of(ground, lane, role, name) {
        Ok(object) => {
            cursor.pass()?;
            Ok(Object { at, object })
        }
        Err(cause) => Err(cursor.refuse(cause)),
    }
}

/// The name of a site.
#[tactic(auto, unfolding(crate::specs::Names::site_name))]
pub(crate) fn site_name(cursor: &mut Cursor<'_>, ground: &Ground<'_>) -> Result<u16, Stop>
    ensures { Reads (run _ (spec.site_name (setting_of ground.now)) cursor.old) result cursor.new }
{
    let name = spelled_name(cursor)?;
    match ground.site(name) {
        Some(site) => {
            cursor.pass()?;
            Ok(site)
        }
        None => Err(cursor.refuse(Cause::UnknownName)),
    }
}
