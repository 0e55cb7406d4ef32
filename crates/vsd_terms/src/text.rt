//! The text of a closed term.
ghost use Rattle.std.specs.Prelude.{◌≡◌, ◌≤◌, ◌++◌, length, map, IfOk, OnOk};
ghost use Rattle.vsd_terms.specs.Size.{greatest};
ghost use Rattle.vsd_terms.specs.Substitution.{parameters_of};
ghost use Rattle.vsd_terms.specs.Text.{bracketed, builtin_text, names_of, text_of};

use crate::{Builtin, Names, Term, Terms};
use std::alloc::{AllocError, Global};

impl Builtin {
    /// The name as it is written.
    #[tactic(auto, unfolding(crate::specs::Text::builtin_text))]
    pub fn text(self) -> &'static [u8]
        ensures { result.now ≡ builtin_text self }
    {
        match self {
            Builtin::Object => b"object",
            Builtin::String => b"string",
            Builtin::ValueType => b"System.ValueType",
            Builtin::Bool => b"bool",
            Builtin::Char => b"char",
            Builtin::Int8 => b"int8",
            Builtin::Int16 => b"int16",
            Builtin::Int32 => b"int32",
            Builtin::Int64 => b"int64",
            Builtin::Uint8 => b"uint8",
            Builtin::Uint16 => b"uint16",
            Builtin::Uint32 => b"uint32",
            Builtin::Uint64 => b"uint64",
            Builtin::Float32 => b"float32",
            Builtin::Float64 => b"float64",
        }
    }
}

/// How many names there are at least where each name of `t` is there.
///
/// That is one more than the last number of a name in `t`, and 0 where `t` has none.
pub fn names_needed(t: &Term) -> u32
    ensures { result ≡ names_of t.now }
{
    let Term::Named { name, args } = t else {
        return 0;
    };
    let mut most = u32::from(*name) + 1;
    for arg in args.as_slice() {
        most = most.max(names_needed(arg));
    }
    most
}

/// The text of a closed term.
///
/// That is its name and then, where it has arguments, `<`, their texts with commas between, and `>`. The error is want of
/// memory.
pub fn print(alloc: Global, t: &Term, names: &Names) -> Result<Vec<u8>, AllocError>
    requires closed { parameters_of t.now ≡ 0 }
    requires named { names_of t.now ≤ length names.now }
    ensures { IfOk result (λ text. text.items ≡ text_of names.now t.now) }
{
    let mut out = Vec::new(alloc);
    print_to(&mut out, t, names)?;
    Ok(out)
}

// Puts the text of `t` at the end of `out`.
#[cycle(print_to)]
fn print_to(out: &mut Vec<u8>, t: &Term, names: &Names) -> Result<(), AllocError>
    requires closed { parameters_of t.now ≡ 0 }
    requires named { names_of t.now ≤ length names.now }
    ensures { OnOk result (out.new.items ≡ out.old.items ++ text_of names.now t.now) }
{
    match t {
        Term::Builtin(builtin) => out.extend_from_slice(builtin.text()),
        Term::Param(_) => unreachable!(),
        Term::Named { name, args } => {
            out.extend_from_slice(names.name(*name))?;
            print_arguments(out, args, names)
        }
    }
}

#[cycle(print_to)]
fn print_arguments(out: &mut Vec<u8>, args: &Terms, names: &Names) -> Result<(), AllocError>
    requires closed { greatest (map parameters_of args.now) ≡ 0 }
    requires named { greatest (map names_of args.now) ≤ length names.now }
    ensures { OnOk result (out.new.items ≡ out.old.items ++ bracketed (map (text_of names.now) args.now)) }
{
    if args.is_empty() {
        return Ok(());
    }
    let mut before = b'<';
    for arg in args.as_slice() {
        out.push(before)?;
        print_to(out, arg, names)?;
        before = b',';
    }
    out.push(b'>')?;
    Ok(())
}
