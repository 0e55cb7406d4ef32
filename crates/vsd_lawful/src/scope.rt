//! Declarations with a table of their places by name.
ghost use Rattle.std.specs.Prelude.{◌≡◌, length, IfOk};
ghost use Rattle.std.specs.Option.{option_copied};
ghost use Rattle.vsd_ast.specs.Lookup.{declared};
ghost use Rattle.vsd_ast.specs.WellFormed.{AreWellFormed};
ghost use Rattle.vsd_lawful.specs.Index.{IsIndex, place_below, place_in};

use std::alloc::{AllocError, Global};
use vsd_ast::{Decl, Decls};

/// The declarations of a text, found by name at once.
#[derive(Clone, Copy)]
pub struct Scope<'a> {
    pub list: &'a [Decl],
    /// For each number of a name the place of the first declaration with it, and the count of declarations where there is
    /// none.
    pub places: &'a [u16],
    ghost indexed: { IsIndex list.now places.now },
}

impl<'a> Scope<'a> {
    /// The place, from 0, of the first declaration whose name has this number, from 0.
    pub fn place(&self, name: u16) -> Option<u16>
        ensures { result ≡ place_in self.now.list.now name }
    {
        if name as usize >= self.places.len() {
            return None;
        }
        there(self.places[name as usize], self.list.len())
    }

    /// The first declaration whose name has this number, from 0.
    pub fn declared(&self, name: u16) -> Option<&'a Decl>
        ensures { option_copied result ≡ declared self.now.list.now name }
    {
        match self.place(name) {
            Some(place) => Some(&self.list[place as usize]),
            None => None,
        }
    }
}

// The place, where it is one of so many.
fn there(place: u16, count: usize) -> Option<u16>
    ensures { result ≡ place_below place count }
{
    if (place as usize) < count {
        Some(place)
    } else {
        None
    }
}

/// The table by name, for each name that was seen. The error is want of memory.
pub fn index(alloc: Global, decls: &Decls) -> Result<Vec<u16>, AllocError>
    requires { AreWellFormed decls.now }
    ensures count { IfOk result (λ places. length places.items ≡ length decls.now.names) }
    ensures index { IfOk result (λ places. IsIndex decls.now.list places.items) }
{
    let list = decls.list.as_slice();
    let mut places = vec![in alloc; list.len() as u16; decls.names.len()]?;
    for place in (0..list.len()).rev() {
        places[list[place].name as usize] = place as u16;
    }
    Ok(places)
}
