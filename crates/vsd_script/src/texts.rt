//! The texts of what a script may have only so many of.
ghost use Rattle.std.specs.Prelude.{◌≡◌};
ghost use Rattle.vsd_script.specs.Texts as spec;

use vsd_grammar::Listed;

/// The name under which one too many is refused.
#[tactic(auto, unfolding(crate::specs::Texts::listed_text))]
pub fn listed_text(listed: Listed) -> &'static str
    ensures { result.now ≡ spec.listed_text listed }
{
    match listed {
        Listed::Sites => "sites",
        Listed::Hosts => "hosts",
        Listed::Lanes => "lanes",
    }
}
