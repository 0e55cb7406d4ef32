//! The least of what shows: a number, such as a line, with a property that no smaller one has.
#![tactic(auto)]

ghost use Rattle.std.specs.Prelude.{◌≡◌};
ghost use Rattle.vsd_least.specs.Least.{earlier_of, line_if};

/// The lesser of two numbers that may be missing. With both it is the first that counts where they are equal.
pub fn earlier(a: Option<u32>, b: Option<u32>) -> Option<u32>
    ensures { result ≡ earlier_of a b }
{
    match (a, b) {
        (None, b) => b,
        (a, None) => a,
        (Some(x), Some(y)) => { if y < x { Some(y) } else { Some(x) } }
    }
}

/// The line, where the test is true.
pub fn shown(test: bool, line: u32) -> Option<u32>
    ensures { result ≡ line_if test line }
{
    if test { Some(line) } else { None }
}
