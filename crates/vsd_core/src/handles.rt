//! Handles through a runtime: loading, learning and unloading types.
ghost use Rattle.std.specs.Prelude.{◌≡◌, ◌≢◌, ◌<◌, ◌+◌, ◌*◌, ◌↔◌, ℕ, IfOk, IsOk, IsErr, OnErr, IsTrue, Ok, None, List, position};
ghost use Rattle.vsd_words.specs.declared.handle.Handle.{Handle};
ghost use Rattle.vsd_rule.specs.Lists.{host_type};
ghost use Rattle.vsd_rule.specs.Facts.{Knows, IsOwn};
ghost use Rattle.vsd_trails.specs.RowTrails.{typing};
ghost use Rattle.vsd_trails.specs.UnloadTrails.{binding, unloading};
ghost use Rattle.vsd_trails.specs.Logs.{Entry};
ghost use Rattle.vsd_trails.specs.Operations.{Event, loaded, unloaded};
ghost use Rattle.vsd_trails.specs.declared.answers.Unloaded.{Unloaded};
ghost use Rattle.vsd_rows.specs.Makes.{Makes};
ghost use Rattle.vsd_rows.specs.Logged.{LogsOne};
ghost use Rattle.vsd_handles.specs.OwnRows.{IsOwned, IsNext};
ghost use Rattle.vsd_unloads.specs.Unloads.{StoresFirst, PurgesAll, SweepsOldest};
ghost use Rattle.vsd_core.specs.Callers.{seat_of, known_by, LogIs};
ghost use Rattle.vsd_core.specs.Runtimes.{fixed_in, IsCallerOf, HasHandle, IsHost};
ghost use Rattle.vsd_core.specs.Owning.{IsPast, KeepsHandles, LosesHandle, HasNoSpare, HasBound, HasUnbound, live_in, loads_in};

use crate::caller::Caller;
use crate::runtime::Runtime;
use vsd_handles::{HandlesFull, bind, owns, type_of};
use vsd_rule::Resolver;
use vsd_trails::Unloaded;
use vsd_words::Handle;

impl<R: Resolver> Runtime<R> {
    /// Loads the type of number `t`, below the resolver's count of types: a new handle that names it, until
    /// this caller unloads it.
    ///
    /// It takes the lowest of the caller's 64 rows that is neither live nor at its last generation, one
    /// generation on.
    ///
    /// `HandlesFull` comes exactly where there is no such row, and changes nothing: never for a caller with
    /// fewer than 64 live handles that has loaded fewer than 4,294,967,295 times.
    pub fn load(&self, who: &mut Caller, t: u16) -> Result<Handle, HandlesFull>
        requires caller { IsCallerOf self.now who.old }
        requires number { t < (fixed_in self.now).world.types }
        ensures full { IsErr result ↔ HasNoSpare (known_by who.old) }
        ensures unchanged { OnErr result (who.new ≡ who.old) }
        ensures trail { IfOk result (λ h. Makes (seat_of who.old) (seat_of who.new) (binding h t) h) }
        ensures logged { IfOk result (λ h. LogsOne (fixed_in self.now) (seat_of who.old) (seat_of who.new) (loaded t h) 1) }
        ensures has { IfOk result (HasHandle (fixed_in self.now)) }
        ensures next { IfOk result (IsNext (known_by who.old)) }
        ensures own { IfOk result (λ h. HasBound (known_by who.old) (known_by who.new) h t) }
        ensures counts { IfOk result (λ h. (live_in (known_by who.new).handles.owned ≡ live_in (known_by who.old).handles.owned + 1)
            × (loads_in (known_by who.new).handles.owned ≡ loads_in (known_by who.old).handles.owned + 1)) }
        ensures room { live_in (known_by who.old).handles.owned < 64 → loads_in (known_by who.old).handles.owned < 4294967295 → IsOk result }
        ensures fresh { IfOk result (λ h. (number : ℕ) → ¬ Knows (known_by who.old).handles h number) }
        ensures owned { IfOk result (IsOwned (known_by who.new)) }
        ensures known { IfOk result (λ h. Knows (known_by who.new).handles h t) }
        ensures keeps { KeepsHandles (known_by who.old) (known_by who.new) }
        ensures caller { IsCallerOf self.now who.new }
    {
        bind(&self.table, &mut who.hand, &mut who.owned, t)
    }

    /// Unloads a handle that the caller owns: it names nothing any more, and never will again. Then every
    /// cell and every bucket that names a row of the handle gives it back, as far as the caller's limbo has
    /// room and no other caller is first.
    pub fn unload(&self, who: &mut Caller, h: Handle)
        requires caller { IsCallerOf self.now who.old }
        requires owned { IsOwned (known_by who.old) h }
        ensures trail { Makes (seat_of who.old) (seat_of who.new) (unloading (fixed_in self.now) h) tt }
        ensures logged { LogsOne (fixed_in self.now) (seat_of who.old) (seat_of who.new) (unloaded h)
            (5 + (fixed_in self.now).sizes.callers + 5 * ((fixed_in self.now).sizes.sites + (fixed_in self.now).sizes.buckets)) }
        ensures first { StoresFirst h (seat_of who.old) (seat_of who.new) }
        ensures purges { PurgesAll (fixed_in self.now) h (seat_of who.old) (seat_of who.new) }
        ensures sweeps { SweepsOldest (fixed_in self.now) (seat_of who.old) (seat_of who.new) }
        ensures own { HasUnbound (known_by who.old) (known_by who.new) h }
        ensures counts { (live_in (known_by who.new).handles.owned + 1 ≡ live_in (known_by who.old).handles.owned)
            × (loads_in (known_by who.new).handles.owned ≡ loads_in (known_by who.old).handles.owned) }
        ensures owned { (g : Handle) → IsOwned (known_by who.new) g ↔ (IsOwned (known_by who.old) g × (g ≢ h)) }
        ensures loses { LosesHandle (known_by who.old) (known_by who.new) h }
        ensures caller { IsCallerOf self.now who.new }
    {
        vsd_unloads::unload(&self.table, &mut who.hand, &mut who.owned, h);
    }

    /// The number of the type that the handle, which the runtime has (`has`), names now, by one load of its
    /// handle word. It is below the resolver's count of types.
    ///
    /// `Unloaded` comes exactly where that word, carried in the error, has another generation or isn't live:
    /// never for a host's handle or one that the caller owns, and always for one that it has unloaded.
    pub fn learn(&self, who: &mut Caller, h: Handle) -> Result<u16, Unloaded>
        requires caller { IsCallerOf self.now who.old }
        requires handle { HasHandle (fixed_in self.now) h }
        ensures trail { Makes (seat_of who.old) (seat_of who.new) (typing h) result }
        ensures log { (entries : List (Entry Event)) → LogIs (fixed_in self.now) who.old entries → LogIs (fixed_in self.now) who.new entries }
        ensures learnt { IfOk result (Knows (known_by who.new).handles h) }
        ensures known { (number : ℕ) → Knows (known_by who.old).handles h number → IfOk result (λ n. n ≡ number) }
        ensures in_world { IfOk result (λ n. n < (fixed_in self.now).world.types) }
        ensures host { IsHost (fixed_in self.now) h → result ≡ Ok (host_type (fixed_in self.now) h.row) }
        ensures owned { IsOwned (known_by who.old) h → IsOk result }
        ensures past { IsPast (known_by who.old) h → IsErr result }
        ensures own { (known_by who.new).handles.owned ≡ (known_by who.old).handles.owned }
        ensures keeps { KeepsHandles (known_by who.old) (known_by who.new) }
        ensures caller { IsCallerOf self.now who.new }
    {
        type_of(&self.table, &mut who.hand, h)
    }

    /// Whether the caller owns the handle: it loaded it, and has not unloaded it.
    pub fn owns(&self, who: &Caller, h: Handle) -> bool
        ensures { IsTrue result ↔ IsOwned (known_by who.now) h }
    {
        owns(&who.owned, &who.hand, h)
    }
}
