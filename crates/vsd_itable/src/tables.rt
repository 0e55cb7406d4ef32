//! Tables over a closed list.
ghost use Rattle.std.specs.Prelude.{◌≡◌, ◌↔◌, ◌<◌, All, IfErr, IfOk, IsTrue, length};
ghost use Rattle.vsd_check.specs.Checked.{decls_of};
ghost use Rattle.vsd_compat.specs.Compatibility.{IsCompatible};
ghost use Rattle.vsd_compat.specs.Variances.{AreVariancesOf};
ghost use Rattle.vsd_slots.specs.Refusals.{Passes};
ghost use Rattle.vsd_types.specs.Types.{type_at};
ghost use Rattle.vsd_rule.specs.Lists.{entry};
ghost use Rattle.vsd_itable.specs.Refusals.{IsRefused};
ghost use Rattle.vsd_itable.specs.Tables.{AreTables, IsTargetOf, IsToken, cmp_of, number_of, numbered_text, sel_of, slot_text, tokens_count, types_count};
ghost use Rattle.vsd_itable.specs.Worlds.{IsWorldOf};

use crate::error::BuildError;
use crate::filling::fill_targets;
use crate::numbering::number_methods;
use crate::refusing::refusal;
use crate::selecting::Parts;
use crate::target::Target;
use crate::targets::Targets;
use crate::world::World;
use std::alloc::{AllocError, Global};
use std::marker::Model;
use vsd_check::Checked;
use vsd_compat::Variances;
use vsd_rule::Resolver;
use vsd_slots::{ClosedMethod, implement, method_text};
use vsd_terms::Names;
use vsd_types::Closed;

/// What each call and each cast answers, by the numbers of closed types and of dispatch tokens.
#[derive(Drop)]
pub struct Tables {
    pub(crate) checked: Checked,
    pub(crate) closed: Closed,
    pub(crate) variances: Variances,
    pub(crate) tokens: Vec<(u16, u16)>,
    pub(crate) methods: Vec<ClosedMethod>,
    pub(crate) targets: Targets,
}

impl Model for Tables {
    ghost use Rattle.std.specs.Prelude.{◌≡◌};
    ghost use Rattle.std.specs.Coded.{codes};
    ghost use Rattle.vsd_compat.specs.Variances.{AreVariancesOf};
    ghost use Rattle.vsd_check.specs.Checked.{decls_of};
    ghost use Rattle.vsd_itable.specs.Tables.{AreTables};
    ghost use Rattle.vsd_itable.specs.Value.{Value as Told};
    ghost use Rattle.vsd_terms.specs.contracts.term.Term as term;

    ghost Value = { Told };

    ghost coded = { Prim.hlevel (codes, term.the_row.coded) };

    ghost view = { λ t. record { closed = t.closed; tokens = t.tokens.items; methods = t.methods.items; targets = t.targets; matrix = t.variances.matrix } };

    ghost invariant = { λ t. (t.closed.decls ≡ decls_of t.checked) × AreVariancesOf t.closed t.variances
        × AreTables (record { closed = t.closed; tokens = t.tokens.items; methods = t.methods.items; targets = t.targets; matrix = t.variances.matrix }) };
}

impl Tables {
    /// Makes the tables of a closed list, for these dispatch tokens: pairs of the number of an interface's type and the place of
    /// one of its methods. The parts were made from one another.
    ///
    /// Classes are taken by number. The slots of a class are the methods of the different interfaces of it and of the classes
    /// above it. `TooManySlots` comes for the first class with which they add up to more than 262,144. `MissingImplementation`
    /// comes for the first class that isn't abstract and has a method without implementation: the first by interface, nearest
    /// class first, and then by its place. For one class `TooManySlots` comes first. `Memory` is want of memory. An error
    /// drops what was given.
    pub fn build(
        alloc: Global,
        checked: Checked,
        closed: Closed,
        variances: Variances,
        tokens: Vec<(u16, u16)>,
    ) -> Result<Tables, BuildError>
        requires together { closed.decls ≡ decls_of checked }
        requires variances { AreVariancesOf closed variances }
        requires tokens { All (IsToken closed) tokens.items }
        ensures closed { IfOk result (λ tables. tables.closed ≡ closed) }
        ensures tokens { IfOk result (λ tables. tables.tokens ≡ tokens.items) }
        ensures tables { IfOk result AreTables }
        ensures passes { IfOk result (λ _. Passes closed (length closed.types)) }
        ensures refused { IfErr result (IsRefused closed) }
    {
        let slots = match implement(alloc, &checked, &closed) {
            Ok(slots) => slots,
            Err(error) => return Err(refusal(alloc, &checked, &closed, error)),
        };
        let numbers = number_methods(alloc, &checked, &closed)?;
        let targets = fill_targets(
            alloc,
            &Parts {
                checked: &checked,
                closed: &closed,
                variances: &variances,
                slots: &slots,
            },
            &numbers,
            tokens.as_slice(),
        )?;
        Ok(Tables {
            checked,
            closed,
            variances,
            tokens,
            methods: numbers.methods,
            targets,
        })
    }

    /// What a call through token `k` gets on an object of type `t` (ECMA-335, II.12.2), which are told by their numbers,
    /// from 0. One look-up. Takes no memory.
    pub fn select(&self, t: u16, k: u16) -> Target
        requires listed { t < types_count self.now }
        requires token { k < tokens_count self.now }
        ensures entry { number_of result ≡ entry (sel_of self.now) (tokens_count self.now) t k }
        ensures selects { IsTargetOf self.now t k (number_of result) }
    {
        match self.targets.entries[usize::from(t) * self.tokens.len() + usize::from(k)] {
            0 => Target::Missing,
            number => Target::Method(number - 1),
        }
    }

    /// Whether a value of type `t` may stand where `u` is asked for (ECMA-335, I.8.7), which are told by their numbers,
    /// from 0. One look-up. Takes no memory.
    pub fn compat(&self, t: u16, u: u16) -> bool
        requires first { t < types_count self.now }
        requires second { u < types_count self.now }
        ensures entry { IsTrue result ↔ (entry (cmp_of self.now) (types_count self.now) t u ≡ 1) }
        ensures compatible { IsTrue result ↔ IsCompatible self.now.closed.decls.list (type_at self.now.closed.types t) (type_at self.now.closed.types u) }
    {
        self.variances.compatible(&self.closed, t, u)
    }

    /// The answers alone, in memory of their own: the same types and tokens with the same answers. Threads can share them,
    /// as they can't share tables, whose terms lead back to themselves. The error is want of memory.
    pub fn world(&self, alloc: Global) -> Result<World, AllocError>
        ensures { IfOk result (IsWorldOf self.now) }
    {
        let targets = self.targets.copy(alloc)?;
        let variances = self.variances.copy(alloc)?;
        Ok(World {
            types: self.closed.count(),
            tokens: self.tokens.len(),
            targets,
            variances,
        })
    }

    /// The closed list. Takes no memory.
    pub fn closed(&self) -> &Closed
        ensures closed { result.now ≡ self.now.closed }
        ensures tables { AreTables self.now }
    {
        &self.closed
    }

    /// The names of the declarations. Takes no memory.
    pub fn names(&self) -> &Names
        ensures { result.now ≡ self.now.closed.decls.names }
    {
        &self.checked.decls().names
    }

    /// The text of the method of a number, from 0: the closed class that declares it, `::`, its name, and `#k` where it is
    /// the k-th virtual method of that name in its declaration and k is at least 2. The error is want of memory.
    pub fn method_text(&self, alloc: Global, n: u32) -> Result<Vec<u8>, AllocError>
        requires { n < length self.now.methods }
        ensures { IfOk result (λ text. text.items ≡ numbered_text self.now n) }
    {
        let method = self.methods[n as usize];
        method_text(
            alloc,
            &self.checked,
            &self.closed,
            method.class,
            method.method,
        )
    }

    /// The text of the slot of token `k`, from 0, made alike from the closed interface. The error is want of memory.
    pub fn token_text(&self, alloc: Global, k: u16) -> Result<Vec<u8>, AllocError>
        requires { k < tokens_count self.now }
        ensures { IfOk result (λ text. text.items ≡ slot_text self.now k) }
    {
        let (interface, slot) = self.tokens[k as usize];
        method_text(alloc, &self.checked, &self.closed, interface, slot)
    }
}

impl Resolver for Tables {
    ghost use Rattle.vsd_compat.specs.Matrices.{bits_of};
    ghost use Rattle.vsd_itable.specs.BitList.{bit-below};

    ghost types = { types_count };

    ghost tokens = { tokens_count };

    ghost sel = { sel_of };

    ghost cmp = { cmp_of };

    fn select(&self, t: u16, k: u16) -> u32 {
        self.targets.entries[usize::from(t) * self.tokens.len() + usize::from(k)]
    }

    fn compat(&self, t: u16, u: u16) -> bool {
        self.variances.compatible(&self.closed, t, u)
    }

    ghost targets_fit = { λ v i. v.targets.fits i };

    ghost answers_are_bits = { λ v i. bit-below (types_count v) (bits_of v.matrix) i };
}
