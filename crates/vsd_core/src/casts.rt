//! Casts through a runtime.
ghost use Rattle.std.specs.Prelude.{◌≡◌, ℕ, IfOk, IfErr, IsOk};
ghost use Rattle.std.specs.Int.{from_bool};
ghost use Rattle.vsd_rule.specs.Lists.{compatible};
ghost use Rattle.vsd_rule.specs.Facts.{Knows};
ghost use Rattle.vsd_rule.specs.Evidence.{HasCastEvidence};
ghost use Rattle.vsd_trails.specs.CastTrails.{casting};
ghost use Rattle.vsd_trails.specs.Operations.{cast_to};
ghost use Rattle.vsd_rows.specs.Makes.{Makes};
ghost use Rattle.vsd_rows.specs.Logged.{LogsOne};
ghost use Rattle.vsd_handles.specs.OwnRows.{IsSure};
ghost use Rattle.vsd_ccache.specs.Tells.{Tells};
ghost use Rattle.vsd_casts.specs.Answers.{AnswerTells};
ghost use Rattle.vsd_core.specs.Callers.{seat_of, known_by};
ghost use Rattle.vsd_core.specs.Runtimes.{fixed_in, IsCallerOf, HasHandle};
ghost use Rattle.vsd_core.specs.Owning.{KeepsHandles};

use crate::caller::Caller;
use crate::runtime::Runtime;
use vsd_rule::Resolver;
use vsd_trails::{CastAnswer, Unloaded};
use vsd_words::Handle;

impl<R: Resolver> Runtime<R> {
    /// Whether the source's type is compatible with the target's (ECMA-335, I.8.7), and whether the resolver was
    /// asked: it is asked exactly where no row that was looked at held the pair. The runtime has both handles
    /// (`has`).
    ///
    /// `Unloaded` comes only where no row held the pair, and a handle that is neither a host's nor one that the
    /// caller owns has a word, carried in the error, of another generation or that isn't live. The source's word
    /// is loaded first. The caller is then as it was, but for its steps and its log.
    #[inline(always)]
    pub fn cast(
        &self,
        who: &mut Caller,
        source: Handle,
        target: Handle,
    ) -> Result<CastAnswer, Unloaded>
        requires caller { IsCallerOf self.now who.old }
        requires source { HasHandle (fixed_in self.now) source }
        requires target { HasHandle (fixed_in self.now) target }
        ensures trail { Makes (seat_of who.old) (seat_of who.new) (casting (fixed_in self.now) source target) result }
        ensures logged { LogsOne (fixed_in self.now) (seat_of who.old) (seat_of who.new) (cast_to source target result) 39 }
        ensures tells { Tells (seat_of who.old) (seat_of who.new) (λ trail. AnswerTells source target trail result) }
        ensures complete { IsSure (known_by who.old) source → IsSure (known_by who.old) target → IsOk result }
        ensures cause { IfErr result (λ u. ¬ IsSure (known_by who.old) u.handle) }
        ensures evidence { IfOk result (λ a. HasCastEvidence (known_by who.new) source target a.yes) }
        ensures world { IfOk result (λ a. (number other : ℕ) → Knows (known_by who.new).handles source number
            → Knows (known_by who.new).handles target other → from_bool a.yes ≡ compatible (fixed_in self.now) number other) }
        ensures own { (known_by who.new).handles.owned ≡ (known_by who.old).handles.owned }
        ensures keeps { KeepsHandles (known_by who.old) (known_by who.new) }
        ensures caller { IsCallerOf self.now who.new }
    {
        vsd_casts::cast(&self.table, &self.resolver, &mut who.hand, source, target)
    }
}
