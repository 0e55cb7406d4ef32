//! Calls through a runtime.
ghost use Rattle.std.specs.Prelude.{◌≡◌, ◌+◌, ◌<◌, ℕ, IfOk, IsOk};
ghost use Rattle.vsd_rule.specs.Lists.{site_token, target_of};
ghost use Rattle.vsd_rule.specs.Facts.{Knows};
ghost use Rattle.vsd_rule.specs.Evidence.{HasEvidence};
ghost use Rattle.vsd_trails.specs.CallTrails.{calling};
ghost use Rattle.vsd_trails.specs.Operations.{called};
ghost use Rattle.vsd_rows.specs.Makes.{Makes};
ghost use Rattle.vsd_rows.specs.Logged.{LogsOne};
ghost use Rattle.vsd_handles.specs.OwnRows.{IsSure};
ghost use Rattle.vsd_calls.specs.Shown.{ShowsPath, ShowsBucket, ShowsCell, ShowsSweep};
ghost use Rattle.vsd_core.specs.Callers.{seat_of, known_by};
ghost use Rattle.vsd_core.specs.Runtimes.{fixed_in, IsCallerOf, HasHandle};
ghost use Rattle.vsd_core.specs.Owning.{KeepsHandles};

use crate::caller::Caller;
use crate::runtime::Runtime;
use vsd_rule::Resolver;
use vsd_trails::{Answer, Unloaded};
use vsd_words::Handle;

impl<R: Resolver> Runtime<R> {
    /// The method that a call through the site, below the sizes' `sites`, reaches on the handle's type: its
    /// number plus 1, or 0 for the missing slot, with where it was found. The runtime has the handle (`has`).
    ///
    /// `Unloaded` comes only where the handle is neither a host's nor one that the caller owns, neither the
    /// site's cell nor the pair's bucket held it, and its handle word, carried in the error, has another
    /// generation or isn't live. The caller is then as it was, but for its steps and its log.
    #[inline]
    pub fn call(&self, who: &mut Caller, site: u16, h: Handle) -> Result<Answer, Unloaded>
        requires caller { IsCallerOf self.now who.old }
        requires site { site < (fixed_in self.now).sizes.sites }
        requires handle { HasHandle (fixed_in self.now) h }
        ensures trail { Makes (seat_of who.old) (seat_of who.new) (calling (fixed_in self.now) site h) result }
        ensures logged { LogsOne (fixed_in self.now) (seat_of who.old) (seat_of who.new) (called site h result) (52 + (fixed_in self.now).sizes.callers) }
        ensures path { ShowsPath (fixed_in self.now) site h (seat_of who.old) (seat_of who.new) result }
        ensures bucket { ShowsBucket (fixed_in self.now) site h (seat_of who.old) (seat_of who.new) result }
        ensures cell { ShowsCell (fixed_in self.now) site h (seat_of who.old) (seat_of who.new) result }
        ensures sweep { ShowsSweep (fixed_in self.now) (seat_of who.old) (seat_of who.new) }
        ensures complete { IsSure (known_by who.old) h → IsOk result }
        ensures evidence { IfOk result (λ a. HasEvidence (known_by who.new) h (site_token (fixed_in self.now) site) a.target) }
        ensures world { IfOk result (λ a. (number : ℕ) → Knows (known_by who.new).handles h number → a.target ≡ target_of (fixed_in self.now) number (site_token (fixed_in self.now) site)) }
        ensures own { (known_by who.new).handles.owned ≡ (known_by who.old).handles.owned }
        ensures keeps { KeepsHandles (known_by who.old) (known_by who.new) }
        ensures caller { IsCallerOf self.now who.new }
    {
        let token = self.token(site);
        vsd_calls::call(&self.table, &self.resolver, &mut who.hand, site, token, h)
    }

    /// The token of a call site.
    #[inline]
    fn token(&self, site: u16) -> u16
        requires { site < (fixed_in self.now).sizes.sites }
        ensures token { result ≡ site_token (fixed_in self.now) site }
        ensures in_range { result < (fixed_in self.now).sizes.tokens }
    {
        self.tokens[usize::from(site)]
    }
}
