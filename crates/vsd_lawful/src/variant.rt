//! Signs on the parameters of a class.
ghost use Rattle.std.specs.Prelude.{◌↔◌, IsTrue};
ghost use Rattle.vsd_least.specs.Least.{IsLeast};
ghost use Rattle.vsd_lawful.specs.Variant.{HasSign, ShowsVariantClass};

use vsd_ast::{Decl, Sign};
use vsd_least::shown;

fn has_sign(decl: &Decl) -> bool
    ensures { IsTrue result ↔ HasSign decl.now }
{
    for param in decl.params.as_slice() {
        if param.sign != Sign::Plain {
            return true;
        }
    }
    false
}

/// The line of a class that has a parameter with a sign (II.9.5).
pub fn variant_class(decl: &Decl) -> Option<u32>
    ensures { IsLeast (ShowsVariantClass decl.now) result }
{
    shown(!decl.is_interface && has_sign(decl), decl.line)
}
