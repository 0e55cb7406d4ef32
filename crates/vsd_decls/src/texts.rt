//! The texts of what isn't supported and of what may be there only so many times.
ghost use Rattle.std.specs.Prelude.{◌≡◌};
ghost use Rattle.vsd_decls.specs.Texts as spec;

use vsd_grammar::{Counted, Form};

/// The name under which a form that isn't supported is refused.
#[tactic(auto, unfolding(crate::specs::Texts::form_text))]
pub fn form_text(form: Form) -> &'static str
    ensures { result.now ≡ spec.form_text form }
{
    match form {
        Form::Nested => "nested",
        Form::TypeForwarding => "type forwarding",
        Form::Namespace => "namespace",
        Form::Enum => "enum",
        Form::Delegate => "delegate",
        Form::ForeignType => "foreign type",
        Form::Constraint => "constraint",
        Form::GenericMethod => "generic method",
        Form::Array => "array",
        Form::Pointer => "pointer",
        Form::NativeInt => "native int",
        Form::TypedReference => "typedref",
        Form::Modifier => "modifier",
        Form::Marshal => "marshal",
        Form::Vararg => "vararg",
        Form::StaticInterfaceMethod => "static interface method",
        Form::DefaultInterfaceMethod => "default interface method",
    }
}

/// The name under which one too many is refused.
#[tactic(auto, unfolding(crate::specs::Texts::counted_text))]
pub fn counted_text(counted: Counted) -> &'static str
    ensures { result.now ≡ spec.counted_text counted }
{
    match counted {
        Counted::Types => "types",
        Counted::Names => "names",
        Counted::Parameters => "parameters",
        Counted::Interfaces => "interfaces",
        Counted::Methods => "methods",
        Counted::Overrides => "overrides",
        Counted::Arguments => "arguments",
        Counted::NameBytes => "name bytes",
    }
}
