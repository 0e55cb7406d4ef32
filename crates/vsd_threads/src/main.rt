//! Four callers on threads of their own, over types that come and go.
//!
//! The callers share one runtime. Each has a [`Caller`], which only its own thread uses, so no thread
//! ever waits for another: a call, a cast, a load and an unload take neither a lock nor memory. In each
//! turn a caller loads a type, posts its handle where the other callers see it, calls a method on it,
//! casts it to a host's type, looks at a handle that another caller posted, and unloads its own again.
//!
//! What the contracts promise is seen here:
//!
//! - A handle that a caller owns is answered, always, and with the world's answer.
//! - A handle that another caller posted may be unloaded at any moment. So it is answered or it is
//!   `Unloaded`, and which of them depends on the threads. But an answer is never another type's: a
//!   handle names one type for ever, and the next load into its row makes another handle.
//! - A client that holds any handle asks `has` before it calls, and `owns` before it unloads. Both are
//!   loads of nothing: no step on the shared words.
//!
//! The lines that are printed are the same whatever the threads do. Where no thread can be made, the
//! callers work one after the other.
#![tactic(auto)]

ghost use Rattle.std.specs.Prelude.{◌≡◌, ◌<◌, All, IfOk, IfSome};
ghost use Rattle.vsd_core.specs.Callers.{IsNewCaller};
ghost use Rattle.vsd_core.specs.Runtimes.{table_of, fixed_in, IsCallerOf, HasHandle};

mod world;

use std::alloc::{AllocError, Global};
use std::sync::atomic::{AtomicU64, Ordering};
use std::thread::Threads;
use std::{io, thread};
use vsd_core::{Caller, Handle, Runtime, Sizes};
use world::{World, is_compatible, target};

/// How many types each caller loads and unloads.
const TURNS: u32 = 25_000;

/// What all threads share: the runtime, and for each caller the handle that it posted last.
#[derive(Drop)]
struct Shared {
    runtime: Runtime<World>,
    posted: [AtomicU64; 4],
    ghost sites: { (fixed_in runtime).sizes.sites ≡ 3 },
    ghost hosts: { (fixed_in runtime).sizes.hosts ≡ 3 },
    ghost types: { (fixed_in runtime).world.types ≡ 4 },
}

impl Shared {
    /// Posts a caller's handle with its type, in one word.
    fn post(&self, number: usize, h: Handle, t: u16)
        requires { number < 4 }
    {
        let word = (u64::from(h.row) << 48) | (u64::from(h.generation) << 16) | u64::from(t);
        self.posted[number].store(word, Ordering::SeqCst);
    }

    /// The handle that a caller posted last, with its type, if it is one of the runtime's.
    fn posted(&self, number: usize) -> Option<(Handle, u16)>
        requires { number < 4 }
        ensures { IfSome result (λ found. HasHandle (fixed_in self.now.runtime) found.0 × (found.1 < 4)) }
    {
        let word = self.posted[number].load(Ordering::SeqCst);
        let h = Handle {
            row: ((word >> 48) % 65_536) as u16,
            generation: ((word >> 16) % 4_294_967_296) as u32,
        };
        let t = (word % 65_536) as u16;
        if t < 4 && self.runtime.has(h) {
            Some((h, t))
        } else {
            None
        }
    }
}

/// A caller with its number, and how many of its answers were not the world's.
#[derive(Drop)]
struct Worker {
    caller: Caller,
    number: u16,
    wrong: u64,
    ghost in_range: { number < 4 },
}

impl Worker {
    /// All turns of the caller.
    fn work(&mut self, shared: &Shared)
        requires caller { IsCallerOf shared.now.runtime self.old.caller }
        ensures caller { IsCallerOf shared.now.runtime self.new.caller }
    {
        for turn in 0..TURNS {
            self.turn(shared, turn);
        }
    }

    /// Loads a type, uses it, looks at another caller's, and unloads it.
    fn turn(&mut self, shared: &Shared, turn: u32)
        requires caller { IsCallerOf shared.now.runtime self.old.caller }
        ensures caller { IsCallerOf shared.now.runtime self.new.caller }
    {
        let t = (turn % 4) as u16;
        let site = (turn % 3) as u16;
        let other = (turn / 12 % 4) as usize;
        match shared.runtime.load(&mut self.caller, t) {
            Ok(own) => {
                shared.post(usize::from(self.number), own, t);
                self.call_and_cast(shared, own, t, site);
                self.look(shared, own, t, site, other);
                if shared.runtime.owns(&self.caller, own) {
                    shared.runtime.unload(&mut self.caller, own);
                } else {
                    self.expect(false);
                }
            }
            Err(_) => self.expect(false),
        }
    }

    /// A call and a cast of the caller's own handle, of type `t`. Both are answered.
    fn call_and_cast(&mut self, shared: &Shared, own: Handle, t: u16, site: u16)
        requires caller { IsCallerOf shared.now.runtime self.old.caller }
        requires handle { HasHandle (fixed_in shared.now.runtime) own }
        requires number { t < 4 }
        requires site { site < 3 }
        ensures caller { IsCallerOf shared.now.runtime self.new.caller }
    {
        match shared.runtime.call(&mut self.caller, site, own) {
            Ok(answer) => self.expect(answer.target == target(t, site / 2)),
            Err(_) => self.expect(false),
        }
        let host = shared.runtime.host(site);
        match shared.runtime.cast(&mut self.caller, own, host) {
            Ok(answer) => self.expect(answer.yes == is_compatible(t, site)),
            Err(_) => self.expect(false),
        }
    }

    /// A look at the handle that another caller posted, which may be unloaded at any moment. What is
    /// answered is the world's for the type that was posted with it.
    fn look(&mut self, shared: &Shared, own: Handle, t: u16, site: u16, other: usize)
        requires caller { IsCallerOf shared.now.runtime self.old.caller }
        requires handle { HasHandle (fixed_in shared.now.runtime) own }
        requires number { t < 4 }
        requires site { site < 3 }
        requires other { other < 4 }
        ensures caller { IsCallerOf shared.now.runtime self.new.caller }
    {
        let Some((h, posted)) = shared.posted(other) else {
            return;
        };
        if let Ok(number) = shared.runtime.learn(&mut self.caller, h) {
            self.expect(number == posted);
        }
        if let Ok(answer) = shared.runtime.call(&mut self.caller, site, h) {
            self.expect(answer.target == target(posted, site / 2));
        }
        if let Ok(answer) = shared.runtime.cast(&mut self.caller, own, h) {
            self.expect(answer.yes == is_compatible(t, posted));
        }
    }

    /// Counts what should hold and doesn't.
    fn expect(&mut self, holds: bool)
        ensures caller { self.new.caller ≡ self.old.caller }
    {
        if !holds {
            self.wrong = self.wrong.wrapping_add(1);
        }
    }
}

/// A worker for each of the runtime's callers.
fn workers_of(
    alloc: Global,
    shared: &Shared,
    mut callers: Vec<Caller>,
) -> Result<Vec<Worker>, AllocError>
    requires { All (IsNewCaller (table_of shared.now.runtime)) callers.items }
    ensures { IfOk result (λ workers. All (λ (w : Worker). IsCallerOf shared.now.runtime w.caller) workers.items) }
{
    let mut workers = Vec::new(alloc);
    for number in 0..4u16 {
        let Some(caller) = callers.pop() else {
            return Ok(workers);
        };
        workers.push(Worker {
            caller,
            number,
            wrong: 0,
        })?;
    }
    Ok(workers)
}

/// All workers at work, each on a thread of its own: how many of their answers were not the world's.
fn all_at_work<R: Threads + Sync>(rt: &R, shared: &Shared, workers: &mut Vec<Worker>) -> u64
    requires { All (λ (w : Worker). IsCallerOf shared.now.runtime w.caller) workers.old.items }
{
    let threads = workers.len();
    if threads > 0 {
        thread::for_each_mut(rt, workers, threads, &|_, worker| worker.work(shared));
    }
    let mut wrong = 0u64;
    for worker in workers.iter() {
        wrong = wrong.wrapping_add(worker.wrong);
    }
    wrong
}

fn main(rt: HostRuntime) -> io::Result<()> {
    let alloc = rt.alloc();
    let sizes = Sizes {
        callers: 4,
        sites: 3,
        tokens: 2,
        rows: 16,
        buckets: 8,
        hosts: 3,
        regions: 2,
        miss: 100,
    };
    if !sizes.lawful() {
        return Ok(());
    }
    let (runtime, callers) = Runtime::start(alloc, sizes, &[0, 0, 1], &[0, 1, 2], World)?;
    let shared = Shared {
        runtime,
        posted: [
            AtomicU64::new(0),
            AtomicU64::new(0),
            AtomicU64::new(0),
            AtomicU64::new(0),
        ],
    };
    let mut workers = workers_of(alloc, &shared, callers)?;
    let wrong = all_at_work(&rt, &shared, &mut workers);
    println!(rt;
        "{} callers, {TURNS} types loaded and unloaded by each",
        workers.len()
    )?;
    println!(rt; "{wrong} answers were not the world's")
}
