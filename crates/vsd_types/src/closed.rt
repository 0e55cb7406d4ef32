//! A closed list of types.
ghost use Rattle.std.specs.Prelude.{◌≡◌, All, ◌+◌, ◌<◌, ◌≤◌, ◌↔◌, ◌⊎◌, Contains, EachIndex, IfSome, IsSome, IsTrue, Some, length, slice_get, slice_index};
ghost use Rattle.std.specs.Option.{option_to_list};
ghost use Rattle.vsd_ast.specs.Lookup.{head_of};
ghost use Rattle.vsd_types.specs.ClosedList.{IsClosedUnder};
ghost use Rattle.vsd_types.specs.Numbers.{AreNumbers, IsDistinct};
ghost use Rattle.vsd_types.specs.Types.{IsClosedType, args_of, base_of, is_interface_type, is_reference_type, named_of, object, place_of_head, signs_of, type_at};

use crate::entry::Entry;
use crate::origin::Origin;
use indexmap::IndexSet;
use sqlite_items::Items;
use std::marker::Model;
use vsd_ast::Sign;
use vsd_terms::{Term, place_of};

/// Closed types, each numbered by its place, from 0. Contracts see the list, with the declarations that it was closed over.
#[derive(Drop)]
pub struct Closed {
    pub(crate) origin: Origin,
    pub(crate) types: IndexSet<Term>,
    pub(crate) entries: Items<Entry>,
}

impl Model for Closed {
    ghost use Rattle.std.specs.Coded.{codes};
    ghost use Rattle.indexmap.specs.IndexSet.{keys};
    ghost use Rattle.vsd_terms.specs.contracts.term.Term as term;
    ghost use Rattle.vsd_types.specs.Entries.{AreKept};
    ghost use Rattle.vsd_types.specs.TypeList.{TypeList};

    ghost Value = { TypeList };

    ghost coded = { Prim.hlevel (codes, term.the_row.coded) };

    ghost view = { λ c. record { decls = c.origin.decls; types = keys c.types } };

    ghost invariant = { λ c. AreKept c.origin.decls.list (keys c.types) c.entries };
}

impl Closed {
    ghost use Rattle.vsd_types.specs.Entries.{IsEntry};

    /// How many types there are, at most 1,024.
    pub fn count(&self) -> u16
        ensures count { result ≡ length self.now.types }
        ensures most { result ≤ 1024 }
        ensures distinct { IsDistinct self.now.types }
        ensures closed { IsClosedUnder self.now.decls.list self.now.types }
        ensures lawful { All (IsClosedType self.now.decls.list) self.now.types }
    {
        self.entries.len() as u16
    }

    /// The type of this number, from 0.
    pub fn term(&self, t: u16) -> &Term
        requires { t < length self.now.types }
        ensures { result.now ≡ type_at self.now.types t }
    {
        &self.types.as_slice()[usize::from(t)]
    }

    /// The number of a type, from 0 to 1,023, where it is listed.
    pub fn number(&self, term: &Term) -> Option<u16>
        ensures found { IfSome result (λ t. slice_get self.now.types t ≡ Some term.now) }
        ensures present { IsSome result ↔ Contains self.now.types term.now }
    {
        match place_of(&self.types, term) {
            Some(place) => Some(place as u16),
            None => None,
        }
    }

    fn entry(&self, t: u16) -> &Entry
        requires { t < length self.now.types }
        ensures { IsEntry self.now.decls.list self.now.types (type_at self.now.types t) result.now }
    {
        &self.entries.as_slice()[usize::from(t)]
    }

    /// The number of the type's base (ECMA-335, II.10.1.3), which `object` and interfaces do not have.
    pub fn base(&self, t: u16) -> Option<u16>
        requires { t < length self.now.types }
        ensures number { AreNumbers self.now.types (option_to_list result) (option_to_list (base_of self.now.decls.list (type_at self.now.types t))) }
        ensures none { (result ≡ None) ↔ ((type_at self.now.types t ≡ object) ⊎ IsTrue (is_interface_type self.now.decls.list (type_at self.now.types t))) }
        ensures within { IfSome result (λ b. b < length self.now.types) }
    {
        let entry = self.entry(t);
        if entry.bases == 0 {
            return None;
        }
        Some(entry.children.as_slice()[0])
    }

    /// The numbers of the interfaces that the type names, in order (II.12).
    pub fn named(&self, t: u16) -> &[u16]
        requires { t < length self.now.types }
        ensures numbers { AreNumbers self.now.types result.now (named_of self.now.decls.list (type_at self.now.types t)) }
        ensures within { EachIndex result.now (λ i. slice_index result.now i < length self.now.types) }
    {
        let entry = self.entry(t);
        &entry.children.as_slice()[entry.bases..entry.bases + entry.interfaces]
    }

    /// The numbers of the type's arguments, in order.
    pub fn args(&self, t: u16) -> &[u16]
        requires { t < length self.now.types }
        ensures numbers { AreNumbers self.now.types result.now (args_of (type_at self.now.types t)) }
        ensures within { EachIndex result.now (λ i. slice_index result.now i < length self.now.types) }
    {
        let entry = self.entry(t);
        &entry.children.as_slice()[entry.bases + entry.interfaces..]
    }

    /// The signs of the parameters of the type's declaration, in order (II.9.5). A built-in has none.
    pub fn signs(&self, t: u16) -> &[Sign]
        requires { t < length self.now.types }
        ensures { result.now ≡ signs_of self.now.decls.list (type_at self.now.types t) }
    {
        self.entry(t).kind.signs.as_slice()
    }

    /// Whether the type is an interface.
    pub fn is_interface(&self, t: u16) -> bool
        requires { t < length self.now.types }
        ensures { result ≡ is_interface_type self.now.decls.list (type_at self.now.types t) }
    {
        self.entry(t).kind.is_interface
    }

    /// Whether the type is a reference type (I.8.7).
    pub fn is_reference(&self, t: u16) -> bool
        requires { t < length self.now.types }
        ensures { result ≡ is_reference_type self.now.decls.list (type_at self.now.types t) }
    {
        self.entry(t).kind.is_reference
    }

    /// The place, from 0, of the type's declaration, which a built-in does not have.
    pub fn declaration(&self, t: u16) -> Option<u16>
        requires { t < length self.now.types }
        ensures place { result ≡ place_of_head self.now.decls.list (head_of (type_at self.now.types t)) }
        ensures within { IfSome result (λ place. place < length self.now.decls.list) }
    {
        self.entry(t).kind.declaration
    }
}
