//! The statements of a script: sites, hosts and lanes.
ghost use Rattle.std.specs.Prelude.{◌≡◌, IfOk};
ghost use Rattle.vsd_grammar.specs.Grammar.{run};
ghost use Rattle.vsd_grammar.specs.Productions.{Reads, ReadsBy};
ghost use Rattle.vsd_script.specs.Productions as spec;

use crate::methods::slot_of;
use sqlite_items::Items;
use std::alloc::{AllocError, Global};
use vsd_ast::{Bytes, Host, Lane, Script, Site};
use vsd_grammar::{Cause, Cursor, Listed, Stop, TokenClass, spelled_name, spelled_number};
use vsd_lanes::{
    Body, Ground, MOST_DIGITS, Reading, Running, Types, assigned, host_in, lane, show, site_in,
};
use vsd_terms::{Term, Terms};
use vsd_type_syntax::written;

/// The most sites, and the most hosts.
const MOST_NAMED: usize = 256;

/// The most lanes.
const MOST_LANES: usize = 64;

/// The most operations of all lanes.
const MOST_OPERATIONS: usize = 200000;

/// The greatest Number after a `#`.
const MOST_OF_NAME: u32 = 256;

/// One more of what there may be so many of.
fn few(count: usize, most: usize, what: Listed) -> Option<Cause>
    ensures { result ≡ spec.few count most what }
{
    if count < most {
        None
    } else {
        Some(Cause::TooManyListed(what))
    }
}

/// The word of a statement, which is at hand.
#[tactic(auto, unfolding(crate::specs::Productions::begun))]
fn begin(cursor: &mut Cursor<'_>, count: usize, most: usize, what: Listed) -> Result<(), Stop>
    ensures { Reads (run _ (spec.begun count most what) cursor.old) result cursor.new }
{
    show(cursor, few(count, most, what))?;
    cursor.pass()
}

/// Why a name can't be given.
fn taken(place: Option<usize>) -> Option<Cause>
    ensures { result ≡ spec.taken place }
{
    match place {
        Some(_) => Some(Cause::Twice),
        None => None,
    }
}

/// The name of a site, which no site has.
#[tactic(auto, unfolding(crate::specs::Productions::site_name))]
fn site_name<'a>(cursor: &mut Cursor<'a>, sites: &[Site]) -> Result<&'a [u8], Stop>
    ensures { ReadsBy (λ b. b.now) (run _ (spec.site_name sites.now) cursor.old) result cursor.new }
{
    let name = spelled_name(cursor)?;
    show(cursor, taken(site_in(sites, name)))?;
    cursor.pass()?;
    Ok(name)
}

/// The name of a host, which no host has.
#[tactic(auto, unfolding(crate::specs::Productions::host_name))]
fn host_name<'a>(cursor: &mut Cursor<'a>, hosts: &[Host]) -> Result<&'a [u8], Stop>
    ensures { ReadsBy (λ b. b.now) (run _ (spec.host_name hosts.now) cursor.old) result cursor.new }
{
    let name = spelled_name(cursor)?;
    show(cursor, taken(host_in(hosts, name)))?;
    cursor.pass()?;
    Ok(name)
}

/// The name of a method of a term's interface.
#[tactic(auto, unfolding(crate::specs::Productions::method_name))]
fn method_name<'a>(
    cursor: &mut Cursor<'a>,
    types: &Types<'_>,
    term: &Term,
) -> Result<&'a [u8], Stop>
    ensures { ReadsBy (λ b. b.now) (run _ (spec.method_name types.now.decls.now.list term.now) cursor.old) result cursor.new }
{
    let name = spelled_name(cursor)?;
    match slot_of(types, term, name, 1) {
        Some(_) => {
            cursor.pass()?;
            Ok(name)
        }
        None => Err(cursor.refuse(Cause::UnknownMethod)),
    }
}

/// The Number after `#`: which method of this name.
#[tactic(auto, unfolding(crate::specs::Productions::counted_slot))]
fn counted_slot(
    cursor: &mut Cursor<'_>,
    types: &Types<'_>,
    term: &Term,
    name: &[u8],
) -> Result<u16, Stop>
    ensures { Reads (run _ (spec.counted_slot types.now.decls.now.list term.now name.now) cursor.old) result cursor.new }
{
    let count = spelled_number(cursor, 1, MOST_OF_NAME, MOST_DIGITS)?;
    match slot_of(types, term, name, count) {
        Some(slot) => {
            cursor.pass()?;
            Ok(slot)
        }
        None => Err(cursor.refuse(Cause::UnknownMethod)),
    }
}

/// The slot of a method that is named, with a `#` and a Number or without.
#[tactic(auto, unfolding(crate::specs::Productions::slot))]
fn slot(cursor: &mut Cursor<'_>, types: &Types<'_>, term: &Term) -> Result<u16, Stop>
    ensures { Reads (run _ (spec.slot types.now.decls.now.list term.now) cursor.old) result cursor.new }
{
    let name = method_name(cursor, types, term)?;
    if cursor.eat(TokenClass::Symbol(b'#')) {
        return counted_slot(cursor, types, term, name);
    }
    match slot_of(types, term, name, 1) {
        Some(slot) => Ok(slot),
        None => Err(cursor.refuse(Cause::UnknownMethod)),
    }
}

/// The script with a site more.
fn with_site(
    alloc: Global,
    script: Script,
    name: &[u8],
    term: Term,
    slot: u16,
) -> Result<Script, AllocError>
    ensures { IfOk result (λ s. s ≡ spec.with_site script name.now term slot) }
{
    let Script {
        mut roots,
        mut sites,
        hosts,
        lanes,
    } = script;
    if roots.len() > 4294967295 {
        return Err(AllocError);
    }
    let root = roots.len() as u32;
    roots.push(term)?;
    let name = Items::from_slice(alloc, name)?;
    sites.push(Site { name, root, slot })?;
    Ok(Script {
        roots,
        sites,
        hosts,
        lanes,
    })
}

/// The script with a host more.
fn with_host(alloc: Global, script: Script, name: &[u8], term: Term) -> Result<Script, AllocError>
    ensures { IfOk result (λ s. s ≡ spec.with_host script name.now term) }
{
    let Script {
        mut roots,
        sites,
        mut hosts,
        lanes,
    } = script;
    if roots.len() > 4294967295 {
        return Err(AllocError);
    }
    let root = roots.len() as u32;
    roots.push(term)?;
    let name = Items::from_slice(alloc, name)?;
    hosts.push(Host { name, root })?;
    Ok(Script {
        roots,
        sites,
        hosts,
        lanes,
    })
}

/// `site`, which is at hand, and what it names.
#[tactic(auto, unfolding(crate::specs::Productions::site))]
pub(crate) fn site(
    alloc: Global,
    cursor: &mut Cursor<'_>,
    types: &Types<'_>,
    script: Script,
) -> Result<Script, Stop>
    ensures { Reads (run _ (spec.site types.now.decls.now script) cursor.old) result cursor.new }
{
    begin(cursor, script.sites.len(), MOST_NAMED, Listed::Sites)?;
    let name = site_name(cursor, script.sites.as_slice())?;
    cursor.expect(TokenClass::Symbol(b'='))?;
    let term = written(alloc, cursor, types, false)?;
    cursor.expect(TokenClass::Colons)?;
    let slot = slot(cursor, types, &term)?;
    cursor.expect(TokenClass::Symbol(b';'))?;
    Ok(with_site(alloc, script, name, term, slot)?)
}

/// `host`, which is at hand, and what it names.
#[tactic(auto, unfolding(crate::specs::Productions::host))]
pub(crate) fn host(
    alloc: Global,
    cursor: &mut Cursor<'_>,
    types: &Types<'_>,
    script: Script,
) -> Result<Script, Stop>
    ensures { Reads (run _ (spec.host types.now.decls.now script) cursor.old) result cursor.new }
{
    begin(cursor, script.hosts.len(), MOST_NAMED, Listed::Hosts)?;
    let name = host_name(cursor, script.hosts.as_slice())?;
    let term = assigned(alloc, cursor, types)?;
    Ok(with_host(alloc, script, name, term)?)
}

/// For how many operations these lanes leave room.
fn room_left(lanes: &[Lane]) -> usize
    ensures { result ≡ spec.room_after 200000 lanes.now }
{
    let mut room = MOST_OPERATIONS;
    for lane in lanes {
        room = room.saturating_sub(lane.ops.len());
    }
    room
}

/// The script with a lane more, and its roots.
fn with_lane(
    alloc: Global,
    sites: Items<Site>,
    hosts: Items<Host>,
    lanes: Items<Lane>,
    body: Body,
) -> Result<Script, AllocError>
    ensures { IfOk result (λ s. s ≡ spec.with_lane sites hosts lanes body) }
{
    let mut lanes = lanes;
    let Body { lane, items: _ } = body;
    let Reading {
        variables,
        roots,
        running,
    } = lane;
    let Running { live: _, ops } = running;
    let names = variables.names(alloc)?;
    lanes.push(Lane { names, ops })?;
    Ok(Script {
        roots,
        sites,
        hosts,
        lanes,
    })
}

/// `lane`, which is at hand, and its operations.
#[tactic(auto, unfolding(crate::specs::Productions::lane_of))]
pub(crate) fn lane_of(
    alloc: Global,
    cursor: &mut Cursor<'_>,
    types: &Types<'_>,
    script: Script,
) -> Result<Script, Stop>
    ensures { Reads (run _ (spec.lane_of types.now.decls.now script) cursor.old) result cursor.new }
{
    show(cursor, few(script.lanes.len(), MOST_LANES, Listed::Lanes))?;
    let Script {
        roots,
        sites,
        hosts,
        lanes,
    } = script;
    let body = lane_in(
        alloc,
        cursor,
        types,
        sites.as_slice(),
        hosts.as_slice(),
        lanes.as_slice(),
        roots,
    )?;
    Ok(with_lane(alloc, sites, hosts, lanes, body)?)
}

/// A lane among these sites and hosts, after these lanes.
fn lane_in(
    alloc: Global,
    cursor: &mut Cursor<'_>,
    types: &Types<'_>,
    sites: &[Site],
    hosts: &[Host],
    lanes: &[Lane],
    roots: Terms,
) -> Result<Body, Stop>
    ensures { Reads (run _ (spec.lane_in types.now.decls.now sites.now hosts.now lanes.now roots) cursor.old) result cursor.new }
{
    let ground = Ground {
        types: *types,
        sites,
        hosts,
        room: room_left(lanes),
    };
    lane(alloc, cursor, &ground, roots)
}
