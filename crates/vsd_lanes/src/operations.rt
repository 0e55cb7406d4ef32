//! Operations without braces.
ghost use Rattle.std.specs.Prelude.{◌≡◌, IfOk};
ghost use Rattle.vsd_grammar.specs.Grammar.{run};
ghost use Rattle.vsd_grammar.specs.Productions.{Reads};
ghost use Rattle.vsd_lanes.specs.Setting.{setting_of};
ghost use Rattle.vsd_lanes.specs.Productions as spec;

use crate::ground::Ground;
use crate::meaning::perform;
use crate::reading::{Fresh, Reading, Role, begin, fresh_name, object_name, own_name, site_name};
use crate::tree::{Item, Written};
use crate::types::Types;
use std::alloc::{AllocError, Global};
use vsd_grammar::{Cursor, Stop, TokenClass};
use vsd_terms::Term;
use vsd_type_syntax::written;

/// The lane after an operation, and the operation.
pub type Step = (Reading, Item);

/// `=`, a term and `;`.
///
/// Any other token in place of the signs is refused as unexpected, and the term as [`written`] refuses. Want of memory is
/// `Stop::Memory`.
#[tactic(auto, unfolding(crate::specs::Productions::assigned))]
pub fn assigned(alloc: Global, cursor: &mut Cursor<'_>, types: &Types<'_>) -> Result<Term, Stop>
    ensures { Reads (run _ (spec.assigned types.now.decls.now) cursor.old) result cursor.new }
{
    cursor.expect(TokenClass::Symbol(b'='))?;
    let term = written(alloc, cursor, types, false)?;
    cursor.expect(TokenClass::Symbol(b';'))?;
    Ok(term)
}

/// The lane after an operation that is allowed.
fn performed(lane: Reading, written: Written) -> Result<Step, AllocError>
    ensures { IfOk result (λ p. p ≡ spec.performed lane written) }
{
    let Reading {
        variables,
        roots,
        mut running,
    } = lane;
    perform(written, &mut running)?;
    let lane = Reading {
        variables,
        roots,
        running,
    };
    Ok((lane, Item::Once(written)))
}

/// The lane with a root more.
fn with_root(lane: Reading, term: Term) -> Result<Reading, AllocError>
    ensures { IfOk result (λ after. after ≡ spec.with_root lane term) }
{
    let Reading {
        variables,
        mut roots,
        running,
    } = lane;
    roots.push(term)?;
    Ok(Reading {
        variables,
        roots,
        running,
    })
}

/// The lane after a `load`.
fn loaded(ground: &Ground<'_>, word: usize, fresh: Fresh, term: Term) -> Result<Step, AllocError>
    ensures { IfOk result (λ p. p ≡ spec.loaded (setting_of ground.now) word fresh term) }
{
    let Fresh { lane, at, variable } = fresh;
    if lane.roots.len() > 4294967295 {
        return Err(AllocError);
    }
    let root = lane.roots.len() as u32;
    let concrete = ground.types.is_concrete(&term);
    let lane = with_root(lane, term)?;
    performed(
        lane,
        Written::Load {
            word,
            at,
            variable,
            root,
            concrete,
        },
    )
}

/// `load`, which is at hand, and what it loads.
#[tactic(auto, unfolding(crate::specs::Productions::load))]
pub(crate) fn load(
    alloc: Global,
    cursor: &mut Cursor<'_>,
    ground: &Ground<'_>,
    lane: Reading,
) -> Result<Step, Stop>
    ensures { Reads (run _ (spec.load (setting_of ground.now) lane) cursor.old) result cursor.new }
{
    let word = begin(cursor, ground, &lane)?;
    let fresh = fresh_name(cursor, ground, lane)?;
    let term = assigned(alloc, cursor, &ground.types)?;
    Ok(loaded(ground, word, fresh, term)?)
}

/// `unload`, which is at hand, and what it gives up.
#[tactic(auto, unfolding(crate::specs::Productions::unload))]
pub(crate) fn unload(
    cursor: &mut Cursor<'_>,
    ground: &Ground<'_>,
    lane: Reading,
) -> Result<Step, Stop>
    ensures { Reads (run _ (spec.unload (setting_of ground.now) lane) cursor.old) result cursor.new }
{
    let word = begin(cursor, ground, &lane)?;
    let own = own_name(cursor, ground, &lane)?;
    cursor.expect(TokenClass::Symbol(b';'))?;
    let written = Written::Unload {
        word,
        at: own.at,
        variable: own.variable,
    };
    Ok(performed(lane, written)?)
}

/// `call`, which is at hand, a site and an object.
#[tactic(auto, unfolding(crate::specs::Productions::call))]
pub(crate) fn call(
    cursor: &mut Cursor<'_>,
    ground: &Ground<'_>,
    lane: Reading,
) -> Result<Step, Stop>
    ensures { Reads (run _ (spec.call (setting_of ground.now) lane) cursor.old) result cursor.new }
{
    let word = begin(cursor, ground, &lane)?;
    let site = site_name(cursor, ground)?;
    let object = object_name(cursor, ground, &lane, Role::Call)?;
    cursor.expect(TokenClass::Symbol(b';'))?;
    let written = Written::Call {
        word,
        site,
        at: object.at,
        object: object.object,
    };
    Ok(performed(lane, written)?)
}

/// `cast`, which is at hand, a source and a target.
#[tactic(auto, unfolding(crate::specs::Productions::cast))]
pub(crate) fn cast(
    cursor: &mut Cursor<'_>,
    ground: &Ground<'_>,
    lane: Reading,
) -> Result<Step, Stop>
    ensures { Reads (run _ (spec.cast (setting_of ground.now) lane) cursor.old) result cursor.new }
{
    let word = begin(cursor, ground, &lane)?;
    let source = object_name(cursor, ground, &lane, Role::Cast)?;
    let target = object_name(cursor, ground, &lane, Role::Cast)?;
    cursor.expect(TokenClass::Symbol(b';'))?;
    let written = Written::Cast {
        word,
        at: source.at,
        source: source.object,
        target_at: target.at,
        target: target.object,
    };
    Ok(performed(lane, written)?)
}
