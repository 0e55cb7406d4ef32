//! The declarations of a text, as a script names them.
ghost use Rattle.std.specs.Prelude.{◌≡◌, length, position, IfSome};
ghost use Rattle.std.specs.Str.{bytes_eq};
ghost use Rattle.std.specs.Option.{option_copied};
ghost use Rattle.vsd_ast.specs.Lookup.{declared};
ghost use Rattle.vsd_lawful.specs.Index.{IsIndex};
ghost use Rattle.vsd_grammar.specs.Grammar.{run, count};
ghost use Rattle.vsd_grammar.specs.Productions.{Reads};
ghost use Rattle.vsd_lanes.specs.Types.{numbered, rules_of, arity_by, is_concrete, is_concrete_by};

use vsd_ast::{Decl, Decls};
use vsd_grammar::{Cause, Counted, Cursor, Stop, TokenClass};
use vsd_lawful::Scope;
use vsd_terms::Term;
use vsd_type_syntax::TypeRules;

/// The most bytes of a name.
const MOST_NAME_BYTES: usize = 255;

/// The declarations of a text, found by name.
#[derive(Clone, Copy)]
pub struct Types<'a> {
    decls: &'a Decls,
    /// The place of each name's declaration, as `vsd_lawful::index` gives them.
    places: &'a [u16],
    ghost indexed: { IsIndex decls.now.list places.now },
}

impl<'a> Types<'a> {
    /// These declarations, with the table of their places.
    pub fn new(decls: &'a Decls, places: &'a [u16]) -> Types<'a>
        requires { IsIndex decls.now.list places.now }
        ensures { result.decls.now ≡ decls.now }
    {
        Types { decls, places }
    }

    /// The first declaration whose name has this number, from 0.
    pub fn declared(&self, name: u16) -> Option<&'a Decl>
        ensures { option_copied result ≡ declared self.now.decls.now.list name }
    {
        let scope = Scope {
            list: self.decls.list.as_slice(),
            places: self.places,
        };
        scope.declared(name)
    }

    /// The number of the name of a type that is declared.
    fn number(&self, name: &[u8]) -> Option<u16>
        ensures { result ≡ numbered self.now.decls.now.list (position (bytes_eq name.now) self.now.decls.now.names) }
    {
        match self.find(name) {
            Some(number) => match self.declared(number) {
                Some(_) => Some(number),
                None => None,
            },
            None => None,
        }
    }

    /// The number of a name.
    fn find(&self, name: &[u8]) -> Option<u16>
        ensures { result ≡ position (bytes_eq name.now) self.now.decls.now.names }
    {
        match self.decls.names.find(name) {
            Some(number) => Some(number),
            None => None,
        }
    }

    /// Whether a term is of a class that is not abstract.
    pub fn is_concrete(&self, term: &Term) -> bool
        ensures { result ≡ is_concrete self.now.decls.now.list term.now }
    {
        match term {
            Term::Named { name, args: _ } => match self.declared(*name) {
                Some(decl) => !decl.is_interface && !decl.is_abstract,
                None => false,
            },
            Term::Param(_) => false,
            Term::Builtin(_) => false,
        }
    }
}

impl<'a> TypeRules for Types<'a> {
    ghost use Rattle.vsd_lanes.specs.Types.{rules_of};

    ghost rules = { λ t. rules_of t.decls.now };

    fn resolve(&self, cursor: &mut Cursor<'_>, name: &[u8]) -> Result<u16, Stop>
        ensures { Reads (run _ (count _ ((rules_of self.now.decls.now).resolve name.now)) cursor.old) result cursor.new }
    {
        match self.number(name) {
            Some(number) => Ok(number),
            None => Err(cursor.refuse(Cause::UnknownName)),
        }
    }

    fn foreign(&self, name: &[u8]) -> Cause
        ensures { result ≡ (rules_of self.now.decls.now).foreign name.now }
    {
        if name.len() > MOST_NAME_BYTES {
            Cause::TooMany(Counted::NameBytes)
        } else {
            Cause::UnknownName
        }
    }

    fn has_parameters(&self) -> bool
        ensures { result ≡ (rules_of self.now.decls.now).has_parameters }
    {
        false
    }

    fn parameter(&self, class: TokenClass, bytes: &[u8]) -> Option<u8>
        ensures { result ≡ (rules_of self.now.decls.now).parameter class bytes.now }
    {
        let _ = class;
        let _ = bytes;
        None
    }

    fn arity(&self, number: u16, count: usize) -> Option<Cause>
        ensures { result ≡ (rules_of self.now.decls.now).arity number count }
    {
        match self.declared(number) {
            Some(decl) => {
                if decl.params.len() == count {
                    None
                } else {
                    Some(Cause::Arity)
                }
            }
            None => None,
        }
    }
}
