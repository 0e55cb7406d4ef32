//! Declarations that are lawful.
ghost use Rattle.std.specs.Prelude.{◌≡◌, ◌<◌, length, Some, slice_get, slice_index_or};
ghost use Rattle.vsd_ast.specs.Hierarchy.{IsHierarchy};
ghost use Rattle.vsd_ast.specs.Lookup.{place_of};
ghost use Rattle.vsd_ast.specs.WellFormed.{AreWellFormed};
ghost use Rattle.vsd_ast.specs.declared.declarations.Decl.{Decl};
ghost use Rattle.vsd_ast.specs.declared.declarations.Method.{Method};
ghost use Rattle.vsd_ast.specs.declared.declarations.Override.{Override};
ghost use Rattle.vsd_check.specs.Checked.{decls_of, depths_of};
ghost use Rattle.vsd_check.specs.Conditions.{AreLawful};
ghost use Rattle.vsd_overrides.specs.Implements.{Implements};
ghost use Rattle.vsd_roots.specs.Methods.{IsMethod};
ghost use Rattle.vsd_roots.specs.Slots.{IsRoot};

use sqlite_items::Items;
use std::marker::Model;
use vsd_ast::Decls;
use vsd_overrides::Target;
use vsd_roots::{Place, entry_of};

/// Lawful declarations, with the depth of each: one more than the greatest of its base and its interfaces.
#[derive(Debug, Drop)]
pub struct Checked {
    pub(crate) decls: Decls,
    pub(crate) places: Items<u16>,
    pub(crate) depths: Items<u16>,
    pub(crate) roots: Items<Items<Place>>,
    pub(crate) targets: Items<Items<Option<Target>>>,
}

impl Model for Checked {
    ghost use Rattle.std.specs.Coded.{codes};
    ghost use Rattle.vsd_ast.specs.Hierarchy.{IsHierarchy};
    ghost use Rattle.vsd_ast.specs.WellFormed.{AreWellFormed};
    ghost use Rattle.vsd_check.specs.Conditions.{AreLawful};
    ghost use Rattle.vsd_check.specs.Value.{Value as Told};
    ghost use Rattle.vsd_lawful.specs.Index.{IsIndex};
    ghost use Rattle.vsd_overrides.specs.Targets.{TabulatesTargets};
    ghost use Rattle.vsd_roots.specs.Methods.{Tabulates};
    ghost use Rattle.vsd_roots.specs.Slots.{IsRoot};
    ghost use Rattle.vsd_terms.specs.contracts.term.Term as term;

    ghost Value = { Told };

    ghost coded = { Prim.hlevel (codes, term.the_row.coded) };

    ghost view = { λ c. record { decls = c.decls; depths = c.depths } };

    ghost invariant = { λ c. AreWellFormed c.decls × IsHierarchy c.decls.list c.depths × IsIndex c.decls.list c.places
        × Tabulates c.decls.list (IsRoot c.decls.list) c.roots × TabulatesTargets c.decls.list c.targets
        × AreLawful c.decls };
}

impl Checked {
    /// The declarations. Takes no memory.
    pub fn decls(&self) -> &Decls
        ensures decls { result.now ≡ decls_of self.now }
        ensures lawful { AreLawful (decls_of self.now) }
        ensures well_formed { AreWellFormed (decls_of self.now) }
        ensures hierarchy { IsHierarchy (decls_of self.now).list (depths_of self.now) }
    {
        &self.decls
    }

    /// The place, from 0, of the declaration whose name has this number, among the declarations. Takes no memory.
    pub fn declaration(&self, name: u16) -> u16
        requires { place_of (decls_of self.now).list name < length (decls_of self.now).list }
        ensures place { result ≡ place_of (decls_of self.now).list name }
        ensures within { result < length (decls_of self.now).list }
        ensures well_formed { AreWellFormed (decls_of self.now) }
        ensures hierarchy { IsHierarchy (decls_of self.now).list (depths_of self.now) }
    {
        self.places.as_slice()[name as usize]
    }

    /// The depth of the declaration at this place, from 0: one more than the greatest of its base and its interfaces,
    /// where a built-in type has 0. Takes no memory.
    pub fn depth(&self, decl: u16) -> u16
        requires { decl < length (decls_of self.now).list }
        ensures depth { result ≡ slice_index_or (depths_of self.now) decl 0 }
        ensures well_formed { AreWellFormed (decls_of self.now) }
        ensures hierarchy { IsHierarchy (decls_of self.now).list (depths_of self.now) }
    {
        self.depths.as_slice()[decl as usize]
    }

    /// The root of a virtual method: the declaration and the place of the method that started the slot that it fills
    /// (ECMA-335, II.9.9, II.10.3.1). Declarations, and the methods of one, are told by their places, from 0. Takes no
    /// memory.
    pub fn root(&self, decl: u16, method: u16) -> (u16, u16)
        // The declaration is there, and has a virtual method at this place.
        requires { (m : Method) × IsMethod (decls_of self.now).list (record { decl = decl; method = method }) m }
        ensures root { IsRoot (decls_of self.now).list (record { decl = decl; method = method })
            (record { decl = result.0; method = result.1 }) }
        ensures well_formed { AreWellFormed (decls_of self.now) }
        ensures hierarchy { IsHierarchy (decls_of self.now).list (depths_of self.now) }
    {
        let root = entry_of(self.roots.as_slice(), Place { decl, method });
        (root.decl, root.method)
    }

    /// What an override implements: the interface's method and the declaration's method that implements it (ECMA-335,
    /// II.10.3.2, II.12.2). The override is told by the declaration's place and its own among that declaration's
    /// overrides, both from 0. Takes no memory.
    pub fn target(&self, decl: u16, place: u16) -> Target
        // The declaration is there, and has an override at this place.
        requires { (x : Decl) × ((slice_get (decls_of self.now).list decl ≡ Some x) × (place < length x.overrides)) }
        ensures target { (x : Decl) (o : Override) → slice_get (decls_of self.now).list decl ≡ Some x →
            slice_get x.overrides place ≡ Some o → Implements (decls_of self.now).list decl x o result }
        ensures well_formed { AreWellFormed (decls_of self.now) }
        ensures hierarchy { IsHierarchy (decls_of self.now).list (depths_of self.now) }
    {
        match self.targets.as_slice()[decl as usize].as_slice()[place as usize] {
            Some(target) => target,
            None => unreachable!(),
        }
    }
}
