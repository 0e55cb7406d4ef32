//! The first of several causes that show.
ghost use Rattle.std.specs.Prelude.{◌≡◌};
ghost use Rattle.vsd_check.specs.Earliest.{sooner_of};

use crate::refusal::{Cause, Shown};

/// What was found so far, or the cause, where it shows at a line before. Causes are asked in the order of their numbers,
/// so at one line the one found first counts.
pub(crate) fn sooner(found: Option<Shown>, cause: Cause, line: Option<u32>) -> Option<Shown>
    ensures { result ≡ sooner_of found cause line }
{
    let Some(line) = line else {
        return found;
    };
    match found {
        None => Some(Shown { line, cause }),
        Some(found) => Some(if line < found.line {
            Shown { line, cause }
        } else {
            found
        }),
    }
}
