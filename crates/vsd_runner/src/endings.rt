//! What a run hands back.
ghost use Rattle.std.specs.Prelude.{IsTrue};
ghost use Rattle.vsd_runner.specs.Refusals.{is_sound};

use crate::statuses::Status;

/// What a run hands back: how it ended. A refusal in it is one of a text, with a line of its own, and never
/// want of memory.
#[derive(Debug, Drop)]
pub struct Ended {
    /// How the run ended; `number` gives its exit status.
    pub status: Status,
    pub ghost sound: { IsTrue (is_sound status) },
}
