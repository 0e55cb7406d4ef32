//! What a seat knows.
use crate::cast_view::CastView;
use crate::handle_view::HandleView;
use crate::key::Key;
use crate::row_view::RowView;
use crate::step::Step;
use std::collections::LinkedList;

/// Whose seat it is.
pub enum Who {
    /// The first seat, from which the callers' seats are split, with the number of the next one.
    Root(u16),
    /// The seat of the caller with this number.
    Caller(u16),
}

/// What a seat of the table knows. No value of it is made: contracts and the rule read it.
pub struct View {
    pub key: Key,
    pub who: Who,
    pub handles: HandleView,
    pub rows: RowView,
    pub casts: CastView,
    /// All steps that the seat has made since opening, the latest first.
    pub steps: LinkedList<Step>,
}
