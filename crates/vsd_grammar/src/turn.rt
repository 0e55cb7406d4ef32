//! What a scan does at a token.
use crate::cause::Cause;

/// What a scan does at the token at hand.
#[derive(Clone, Copy, Debug, Drop)]
pub enum Turn<S> {
    /// The scan ends before this token.
    Stop,
    /// The token is passed over, and the scan goes on in this state.
    Pass(S),
    /// The token is refused, for this cause.
    Refuse(Cause),
}
