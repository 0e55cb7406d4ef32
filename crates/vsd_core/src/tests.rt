//! Worked rows of calls, casts and handles, and callers on threads.
ghost use Rattle.std.specs.Prelude.{◌≡◌, ◌<◌, ◌≤◌, ◌+◌, ◌*◌, ◌↔◌, All, IfOk, IfSome, IsTrue, slice_index};
ghost use Rattle.vsd_core.specs.Callers.{IsNewCaller};
ghost use Rattle.vsd_core.specs.Runtimes.{table_of, fixed_in, IsCallerOf};
ghost use Rattle.vsd_casts.specs.Ladders.{ladder, ladder_of_bits};
ghost use Rattle.vsd_core.specs.Worlds.{targets, targets_fit};

use super::*;
use std::alloc::{AllocError, Global};
use std::sync::atomic::{AtomicU64, Ordering};
use std::test::Fail;
use std::thread;
use std::thread::Threads;

/// Four types, of which each is compatible with itself and with those before it, and two tokens. It counts
/// how often it is asked for a method, and whether two types are compatible.
#[derive(Drop)]
struct World {
    asked: AtomicU64,
    compared: AtomicU64,
}

impl Resolver for World {
    ghost types = { λ _. 4 };

    ghost tokens = { λ _. 2 };

    ghost sel = { λ _. targets };

    ghost cmp = { λ _. ladder };

    fn select(&self, t: u16, k: u16) -> u32 {
        self.asked.fetch_add(1, Ordering::SeqCst);
        target(t, k)
    }

    fn compat(&self, t: u16, u: u16) -> bool {
        self.compared.fetch_add(1, Ordering::SeqCst);
        is_compatible(t, u)
    }

    ghost targets_fit = { targets_fit };

    ghost answers_are_bits = { ladder_of_bits };
}

/// The target of a call on a type through a token.
fn target(t: u16, k: u16) -> u32
    requires { (t < 4) × (k < 2) }
    ensures { result ≡ t + 1 + 10 * k }
{
    u32::from(t) + 1 + 10 * u32::from(k)
}

/// Whether the first type is compatible with the second.
fn is_compatible(t: u16, u: u16) -> bool
    requires { (t < 4) × (u < 4) }
    ensures { IsTrue result ↔ slice_index ladder (t * 4 + u) ≡ 1 }
{
    u <= t
}

/// A runtime with the sites 0 and 1 of token 0 and the sites 2 and 3 of token 1, and with twelve hosts, of
/// the types 0 to 3 over and over.
#[derive(Drop)]
struct Opened {
    runtime: Runtime<World>,
    ghost sites: { (fixed_in runtime).sizes.sites ≡ 4 },
    ghost hosts: { (fixed_in runtime).sizes.hosts ≡ 12 },
    ghost types: { (fixed_in runtime).world.types ≡ 4 },
}

impl Opened {
    fn host(&self, i: u16) -> Handle
        requires { i < 12 }
    {
        self.runtime.host(i)
    }

    /// A call of a site on a handle that the runtime has.
    fn call(&self, who: &mut Caller, site: u16, h: Handle) -> Option<Answer>
        requires caller { IsCallerOf self.now.runtime who.old }
        requires site { site < 4 }
        ensures caller { IsCallerOf self.now.runtime who.new }
    {
        if !self.runtime.has(h) {
            return None;
        }
        self.runtime.call(who, site, h).ok()
    }

    /// A cast of two handles that the runtime has.
    fn cast(&self, who: &mut Caller, source: Handle, target: Handle) -> Option<CastAnswer>
        requires caller { IsCallerOf self.now.runtime who.old }
        ensures caller { IsCallerOf self.now.runtime who.new }
    {
        if !self.runtime.has(source) {
            return None;
        }
        if !self.runtime.has(target) {
            return None;
        }
        self.runtime.cast(who, source, target).ok()
    }

    /// A handle that names the type, if the caller has a spare row.
    fn load(&self, who: &mut Caller, t: u16) -> Option<Handle>
        requires caller { IsCallerOf self.now.runtime who.old }
        requires number { t < 4 }
        ensures caller { IsCallerOf self.now.runtime who.new }
    {
        self.runtime.load(who, t).ok()
    }

    /// Unloads a handle that the caller owns: whether it did.
    fn unload(&self, who: &mut Caller, h: Handle) -> bool
        requires caller { IsCallerOf self.now.runtime who.old }
        ensures caller { IsCallerOf self.now.runtime who.new }
    {
        let owned = self.runtime.owns(who, h);
        if owned {
            self.runtime.unload(who, h);
        }
        owned
    }

    /// The type that a handle names, if it is one of the runtime's.
    fn learn(&self, who: &mut Caller, h: Handle) -> Option<u16>
        requires caller { IsCallerOf self.now.runtime who.old }
        ensures caller { IsCallerOf self.now.runtime who.new }
    {
        if !self.runtime.has(h) {
            return None;
        }
        self.runtime.learn(who, h).ok()
    }

    /// The word by which a call finds that the handle is unloaded, if it does.
    fn found_unloaded(&self, who: &mut Caller, site: u16, h: Handle) -> Option<HandleWord>
        requires caller { IsCallerOf self.now.runtime who.old }
        requires site { site < 4 }
        ensures caller { IsCallerOf self.now.runtime who.new }
    {
        if !self.runtime.has(h) {
            return None;
        }
        match self.runtime.call(who, site, h) {
            Ok(_) => None,
            Err(unloaded) => Some(unloaded.found),
        }
    }

    /// The word by which a cast to a host finds that the handle is unloaded, if it does.
    fn cast_unloaded(&self, who: &mut Caller, h: Handle) -> Option<HandleWord>
        requires caller { IsCallerOf self.now.runtime who.old }
        ensures caller { IsCallerOf self.now.runtime who.new }
    {
        if !self.runtime.has(h) {
            return None;
        }
        match self.runtime.cast(who, h, self.runtime.host(0)) {
            Ok(_) => None,
            Err(unloaded) => Some(unloaded.found),
        }
    }

    fn asked(&self) -> u64 {
        self.runtime.resolver().asked.load(Ordering::SeqCst)
    }

    fn compared(&self) -> u64 {
        self.runtime.resolver().compared.load(Ordering::SeqCst)
    }
}

/// Opens a runtime of these sizes, with one region of cast rows, if they are lawful.
fn open_world(
    alloc: Global,
    callers: u16,
    rows: u16,
    miss: u64,
) -> Result<Option<(Opened, Vec<Caller>)>, AllocError>
    ensures { IfOk result (λ found. IfSome found (λ made. All (IsNewCaller (table_of made.0.runtime)) made.1.items)) }
{
    open_regions(alloc, callers, rows, miss, 1)
}

/// Opens a runtime of these sizes, if they are lawful.
fn open_regions(
    alloc: Global,
    callers: u16,
    rows: u16,
    miss: u64,
    regions: u16,
) -> Result<Option<(Opened, Vec<Caller>)>, AllocError>
    ensures { IfOk result (λ found. IfSome found (λ made. All (IsNewCaller (table_of made.0.runtime)) made.1.items)) }
{
    let sizes = Sizes {
        callers,
        sites: 4,
        tokens: 2,
        rows,
        buckets: 1,
        hosts: 12,
        regions,
        miss,
    };
    if !sizes.lawful() {
        return Ok(None);
    }
    let world = World {
        asked: AtomicU64::new(0),
        compared: AtomicU64::new(0),
    };
    let sites = [0, 0, 1, 1];
    let hosts = [0, 1, 2, 3, 0, 1, 2, 3, 0, 1, 2, 3];
    let (runtime, callers) = Runtime::start(alloc, sizes, &sites, &hosts, world)?;
    Ok(Some((Opened { runtime }, callers)))
}

/// The last of some callers.
fn last(opened: &Opened, callers: &mut Vec<Caller>) -> Option<Caller>
    requires { All (IsNewCaller (table_of opened.now.runtime)) callers.old.items }
    ensures caller { IfSome result (IsCallerOf opened.now.runtime) }
    ensures others { All (IsNewCaller (table_of opened.now.runtime)) callers.new.items }
{
    callers.pop()
}

#[test]
fn a_site_is_patched_to_its_first_handle(rt: HostRuntime) -> Result<(), Fail> {
    let (opened, mut callers) = open_world(rt.alloc(), 1, 4, 100)?.ok_or("lawful sizes")?;
    let mut who = last(&opened, &mut callers).ok_or("one caller")?;
    let (a, b) = (opened.host(0), opened.host(1));

    let first = opened.call(&mut who, 0, a).ok_or("answered")?;
    let seen = Seen {
        cell: CellWord::Lookup,
        expected: None,
        entry_handle: None,
        entry_token: None,
    };
    assert_eq!(rt; (first.target, first.path), (1, Path::Walked(seen)));
    let second = opened.call(&mut who, 1, a).ok_or("answered")?;
    assert_eq!(rt; (second.target, second.path), (1, Path::Bucket));
    let third = opened.call(&mut who, 0, a).ok_or("answered")?;
    assert_eq!(rt; (third.target, third.path), (1, Path::Stub));

    let fourth = opened.call(&mut who, 0, b).ok_or("answered")?;
    let seen = Seen {
        cell: CellWord::Dispatch(1),
        expected: Some(a),
        entry_handle: Some(a),
        entry_token: Some(0),
    };
    assert_eq!(rt; (fourth.target, fourth.path), (2, Path::Walked(seen)));
    let fifth = opened.call(&mut who, 0, a).ok_or("answered")?;
    assert_eq!(rt; (fifth.target, fifth.path), (1, Path::Stub));
    Ok(())
}

#[test]
fn a_row_waits_in_limbo(rt: HostRuntime) -> Result<(), Fail> {
    let (opened, mut callers) = open_world(rt.alloc(), 1, 8, 1)?.ok_or("lawful sizes")?;
    let mut who = last(&opened, &mut callers).ok_or("one caller")?;
    let (a, b) = (opened.host(0), opened.host(1));

    opened.call(&mut who, 0, a).ok_or("answered")?;
    assert_eq!(rt; who.hand.limbo.len(), 0);
    let second = opened.call(&mut who, 0, b).ok_or("answered")?;
    assert!(rt; matches!(&second.path, Path::Walked(_)));
    assert_eq!(rt; who.hand.limbo.len(), 1);
    let third = opened.call(&mut who, 0, b).ok_or("answered")?;
    assert_eq!(rt; (third.target, third.path), (2, Path::Bucket));
    assert_eq!(rt; who.hand.limbo.len(), 0);
    Ok(())
}

#[test]
fn a_caller_has_sixty_four_handles(rt: HostRuntime) -> Result<(), Fail> {
    let (opened, mut callers) = open_world(rt.alloc(), 2, 4, 100)?.ok_or("lawful sizes")?;
    let mut other = last(&opened, &mut callers).ok_or("two callers")?;
    let mut who = last(&opened, &mut callers).ok_or("two callers")?;
    let first = opened.load(&mut who, 3).ok_or("a spare row")?;
    for _ in 1..64 {
        assert!(rt; opened.load(&mut who, 2).is_some());
    }
    assert!(rt; opened.load(&mut who, 2).is_none());

    let called = opened.call(&mut who, 2, first).ok_or("answered")?;
    assert_eq!(rt; called.target, 14);
    assert_eq!(rt; opened.learn(&mut other, first), Some(3));
    assert!(rt; opened.unload(&mut who, first));
    assert!(rt; !opened.unload(&mut who, first));
    assert_eq!(rt; opened.learn(&mut who, first), None);
    assert_eq!(rt; opened.learn(&mut other, first), None);

    let again = opened.load(&mut who, 1).ok_or("a spare row")?;
    assert_eq!(rt; (again.row, again.generation), (first.row, 2));
    assert_eq!(rt; opened.learn(&mut other, again), Some(1));
    assert!(rt; opened.load(&mut who, 2).is_none());
    Ok(())
}

#[test]
fn an_unload_takes_a_handle_from_every_caller(rt: HostRuntime) -> Result<(), Fail> {
    let (opened, mut callers) = open_world(rt.alloc(), 2, 8, 100)?.ok_or("lawful sizes")?;
    let mut other = last(&opened, &mut callers).ok_or("two callers")?;
    let mut who = last(&opened, &mut callers).ok_or("two callers")?;
    let h = opened.load(&mut who, 3).ok_or("a spare row")?;
    assert_eq!(rt; opened.learn(&mut other, h), Some(3));
    opened.call(&mut who, 2, h).ok_or("answered")?;
    let through_cell = opened.call(&mut other, 2, h).ok_or("answered")?;
    assert_eq!(rt; (through_cell.target, through_cell.path), (14, Path::Stub));

    assert!(rt; opened.unload(&mut who, h));
    assert_eq!(rt; who.hand.limbo.len(), 1);
    let found = opened.found_unloaded(&mut other, 2, h).ok_or("unloaded")?;
    assert_eq!(rt; (found.generation, found.number, found.live), (1, 3, false));
    let found = opened.cast_unloaded(&mut other, h).ok_or("unloaded")?;
    assert_eq!(rt; (found.generation, found.number, found.live), (1, 3, false));
    assert_eq!(rt; opened.learn(&mut who, h), None);

    let again = opened.load(&mut who, 1).ok_or("a spare row")?;
    assert_eq!(rt; (again.row, again.generation), (h.row, 2));
    let found = opened.found_unloaded(&mut other, 2, h).ok_or("unloaded")?;
    assert_eq!(rt; (found.generation, found.number, found.live), (2, 1, true));
    Ok(())
}

/// One caller at work, with what it counts.
#[derive(Drop)]
struct Worker {
    caller: Caller,
    /// Where its next choice is drawn from.
    seed: u64,
    stubbed: u64,
    walked: u64,
    wrong: u64,
}

impl Worker {
    /// A number below a limit.
    fn draw(&mut self, limit: u16) -> u16
        requires { 0 < limit }
        ensures within { result < limit }
        ensures caller { self.new.caller ≡ self.old.caller }
    {
        self.seed = self
            .seed
            .wrapping_mul(6364136223846793005)
            .wrapping_add(1442695040888963407);
        ((self.seed >> 33) % u64::from(limit)) as u16
    }

    /// A call, with its answer checked against the world.
    fn call(&mut self, opened: &Opened, site: u16, t: u16, h: Handle)
        requires caller { IsCallerOf opened.now.runtime self.old.caller }
        requires site { site < 4 }
        requires number { t < 4 }
        ensures caller { IsCallerOf opened.now.runtime self.new.caller }
    {
        match opened.call(&mut self.caller, site, h) {
            Some(answer) => {
                if answer.target != target(t, site / 2) {
                    self.wrong = self.wrong.wrapping_add(1);
                }
                match &answer.path {
                    Path::Stub => self.stubbed = self.stubbed.wrapping_add(1),
                    Path::Bucket => {}
                    Path::Walked(_) => self.walked = self.walked.wrapping_add(1),
                }
            }
            None => self.wrong = self.wrong.wrapping_add(1),
        }
    }

    /// A cast, with its answer checked against the world.
    fn cast(&mut self, opened: &Opened, t: u16, source: Handle, u: u16, target: Handle)
        requires caller { IsCallerOf opened.now.runtime self.old.caller }
        ensures caller { IsCallerOf opened.now.runtime self.new.caller }
    {
        match opened.cast(&mut self.caller, source, target) {
            Some(answer) => {
                if answer.yes != (u <= t) {
                    self.wrong = self.wrong.wrapping_add(1);
                }
                if answer.walked {
                    self.walked = self.walked.wrapping_add(1);
                }
            }
            None => self.wrong = self.wrong.wrapping_add(1),
        }
    }

    /// A host's handle or its own, with its type.
    fn object(&mut self, opened: &Opened, t: u16, own: Handle) -> (u16, Handle)
        requires { t < 4 }
        ensures number { result.0 < 4 }
        ensures caller { self.new.caller ≡ self.old.caller }
    {
        let object = self.draw(4);
        if object < 3 {
            (object, opened.host(object))
        } else {
            (t, own)
        }
    }

    /// Casts, or calls through the first `sites` sites, where there are any, on the hosts and on a handle of its own, which
    /// is another one every few turns.
    fn work(&mut self, opened: &Opened, turns: u32, sites: u16)
        requires caller { IsCallerOf opened.now.runtime self.old.caller }
        requires sites { sites ≤ 4 }
        ensures caller { IsCallerOf opened.now.runtime self.new.caller }
    {
        let mut t = 0;
        let mut own = opened.host(0);
        for _ in 0..turns {
            let (from, source) = self.object(opened, t, own);
            if sites == 0 {
                let (to, target) = self.object(opened, t, own);
                self.cast(opened, from, source, to, target);
            } else {
                let site = self.draw(sites);
                self.call(opened, site, from, source);
            }
            if self.draw(20) == 0 {
                opened.unload(&mut self.caller, own);
                t = self.draw(4);
                match opened.load(&mut self.caller, t) {
                    Some(h) => own = h,
                    None => self.wrong = self.wrong.wrapping_add(1),
                }
            }
        }
    }
}

/// Workers for some callers.
fn workers_of(
    alloc: Global,
    opened: &Opened,
    mut callers: Vec<Caller>,
) -> Result<Vec<Worker>, AllocError>
    requires { All (IsNewCaller (table_of opened.now.runtime)) callers.items }
    ensures { IfOk result (λ workers. All (λ (w : Worker). IsCallerOf opened.now.runtime w.caller) workers.items) }
{
    let mut workers = Vec::new(alloc);
    for seed in 0..16u64 {
        let Some(caller) = last(opened, &mut callers) else {
            return Ok(workers);
        };
        workers.push(Worker {
            caller,
            seed,
            stubbed: 0,
            walked: 0,
            wrong: 0,
        })?;
    }
    Ok(workers)
}

/// What all workers count.
#[derive(Drop)]
struct Counts {
    stubbed: u64,
    walked: u64,
    wrong: u64,
}

/// All workers at work, each on a thread of its own, and what they count.
fn all_at_work<R: Threads + Sync>(
    rt: &R,
    opened: &Opened,
    workers: &mut Vec<Worker>,
    turns: u32,
    sites: u16,
) -> Counts
    requires workers { All (λ (w : Worker). IsCallerOf opened.now.runtime w.caller) workers.old.items }
    requires sites { sites ≤ 4 }
{
    let threads = workers.len();
    if threads > 0 {
        thread::for_each_mut(
            rt,
            workers,
            threads,
            &|_, worker| worker.work(opened, turns, sites),
        );
    }
    let mut counts = Counts {
        stubbed: 0,
        walked: 0,
        wrong: 0,
    };
    for worker in workers.iter() {
        counts.stubbed = counts.stubbed.wrapping_add(worker.stubbed);
        counts.walked = counts.walked.wrapping_add(worker.walked);
        counts.wrong = counts.wrong.wrapping_add(worker.wrong);
    }
    counts
}

#[test]
fn each_answer_on_each_thread_is_the_worlds(rt: HostRuntime) -> Result<(), Fail> {
    for callers in [2, 4] {
        for rows in 1..9 {
            let (opened, callers) = open_world(rt.alloc(), callers, rows, 1)?.ok_or(
                "lawful sizes",
            )?;
            let mut workers = workers_of(rt.alloc(), &opened, callers)?;
            let counts = all_at_work(&rt, &opened, &mut workers, 100_000, 3);
            assert_eq!(rt; counts.wrong, 0);
            assert_eq!(rt; opened.asked(), counts.walked);
        }
    }
    Ok(())
}

/// Where cells stay with a row, stubs answer: few sites, and many misses before a cell is given up.
#[test]
fn stubs_answer_on_threads(rt: HostRuntime) -> Result<(), Fail> {
    for (callers, sites, miss) in [(3, 1, 400), (4, 2, 600), (8, 3, 800), (16, 4, 1_000)] {
        let (opened, callers) = open_world(rt.alloc(), callers, 64, miss)?.ok_or("lawful sizes")?;
        let mut workers = workers_of(rt.alloc(), &opened, callers)?;
        let counts = all_at_work(&rt, &opened, &mut workers, 10_000, sites);
        assert_eq!(rt; counts.wrong, 0);
        assert!(rt; counts.stubbed > 0);
    }
    Ok(())
}

#[test]
fn each_cast_on_each_thread_is_the_worlds(rt: HostRuntime) -> Result<(), Fail> {
    for (callers, regions) in [(2, 1), (4, 1), (2, 3), (4, 6)] {
        let (opened, callers) = open_regions(rt.alloc(), callers, 4, 100, regions)?.ok_or(
            "lawful sizes",
        )?;
        let mut workers = workers_of(rt.alloc(), &opened, callers)?;
        let counts = all_at_work(&rt, &opened, &mut workers, 100_000, 0);
        assert_eq!(rt; counts.wrong, 0);
        assert!(rt; counts.walked > 128);
        assert_eq!(rt; opened.compared(), counts.walked);
    }
    Ok(())
}

#[test]
fn each_pair_of_hosts_is_cast_twice(rt: HostRuntime) -> Result<(), Fail> {
    for regions in [1, 2, 6] {
        let (opened, mut callers) = open_regions(rt.alloc(), 1, 4, 100, regions)?.ok_or(
            "lawful sizes",
        )?;
        let mut who = last(&opened, &mut callers).ok_or("one caller")?;
        for turn in 0..288u16 {
            let (source, target) = (turn / 12 % 12, turn % 12);
            let answer = opened
                .cast(&mut who, opened.host(source), opened.host(target))
                .ok_or("answered")?;
            assert_eq!(rt; answer.yes, target % 4 <= source % 4);
        }
        assert!(rt; opened.compared() < 288);
    }
    Ok(())
}

#[test]
fn a_pair_is_asked_for_once(rt: HostRuntime) -> Result<(), Fail> {
    let (opened, mut callers) = open_world(rt.alloc(), 1, 8, 100)?.ok_or("lawful sizes")?;
    let mut who = last(&opened, &mut callers).ok_or("one caller")?;
    for _ in 0..1000 {
        let answer = opened.call(&mut who, 0, opened.host(0)).ok_or("answered")?;
        assert_eq!(rt; answer.target, 1);
    }
    assert_eq!(rt; opened.asked(), 1);
    Ok(())
}

#[test]
fn the_resolver_is_asked_by_walks_alone(rt: HostRuntime) -> Result<(), Fail> {
    let (opened, mut callers) = open_world(rt.alloc(), 1, 3, 1)?.ok_or("lawful sizes")?;
    let mut who = last(&opened, &mut callers).ok_or("one caller")?;
    let mut walked = 0u64;
    for turn in 0..1000u16 {
        let (site, host) = (turn % 2, turn % 3);
        let answer = opened
            .call(&mut who, site, opened.host(host))
            .ok_or("answered")?;
        assert_eq!(rt; answer.target, target(host, 0));
        if matches!(&answer.path, Path::Walked(_)) {
            walked = walked.wrapping_add(1);
        }
    }
    assert_eq!(rt; opened.asked(), walked);
    Ok(())
}
