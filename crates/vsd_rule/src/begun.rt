//! What a seat has begun.
ghost use Rattle.std.specs.Prelude.{◌≡◌, List, [], ◌∷◌};
ghost use Rattle.std.specs.Borrow.{ftrue};
ghost use Rattle.vsd_rule.specs.declared.step.Begins.{Begins};

use crate::step::Begins;
use std::marker::Model;

/// What a seat has begun since opening, the latest first, for contracts alone: it has no bytes. A
/// step sees its word and its operands, and none of them says which operation a load of the epoch
/// begins, so this list stands beside the seat.
#[derive(Drop)]
pub struct Begun {
    pub ghost items: { List Begins },
}

impl Model for Begun {
    ghost also_owns = { λ _. ftrue };
}

impl Begun {
    /// Nothing was begun yet.
    pub fn new() -> Begun
        ensures { result.items ≡ [] }
    {
        Begun {}
    }

    /// The list with one more.
    pub fn and(&self, _begins: &Begins) -> Begun
        ensures { result.items ≡ _begins.now ∷ self.now.items }
    {
        Begun {}
    }
}

unsafe impl Send for Begun {}
