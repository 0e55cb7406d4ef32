//! Single lines.
ghost use Rattle.std.specs.Prelude.{◌≡◌, ◌≤◌, ◌++◌, OnOk, codes, length, map};
ghost use Rattle.vsd_lines.specs.Lines.{call_line, cast_line, name_of, target_text, text_at, verdict};
ghost use Rattle.vsd_lines.specs.Names.{IsNamed};

use std::alloc::AllocError;
use vsd_ast::{Bytes, Host, Var};

/// Adds the line of a call: its lane's number in digits, its site's name, and its answer with what that names.
pub(crate) fn add_call(
    page: &mut Vec<u8>,
    digits: &[u8],
    site: &[u8],
    answer: u32,
    method_texts: &[Bytes],
    slot_text: &[u8],
) -> Result<(), AllocError>
    requires { answer ≤ length method_texts.now }
    ensures { OnOk result (page.new.items ≡ page.old.items
        ++ call_line digits.now site.now (target_text (text_at method_texts.now) slot_text.now answer)) }
{
    page.extend_from_slice(digits)?;
    page.push(b' ')?;
    page.extend_from_slice(site)?;
    page.push(b' ')?;
    add_target(page, answer, method_texts, slot_text)?;
    page.push(b'\n')?;
    Ok(())
}

/// Adds what a call got: the method's text, or that the slot is missing.
fn add_target(
    page: &mut Vec<u8>,
    answer: u32,
    method_texts: &[Bytes],
    slot_text: &[u8],
) -> Result<(), AllocError>
    requires { answer ≤ length method_texts.now }
    ensures { OnOk result (page.new.items ≡ page.old.items ++ target_text (text_at method_texts.now) slot_text.now answer) }
{
    if answer == 0 {
        page.extend_from_slice(b"missing ")?;
        return page.extend_from_slice(slot_text);
    }
    page.extend_from_slice(method_texts[answer as usize - 1].as_slice())
}

/// Adds the line of a cast: its lane's number in digits, the names of its source and target, and yes or no.
pub(crate) fn add_cast(
    page: &mut Vec<u8>,
    digits: &[u8],
    source: &[u8],
    target: &[u8],
    answer: u32,
) -> Result<(), AllocError>
    ensures { OnOk result (page.new.items ≡ page.old.items
        ++ cast_line digits.now source.now target.now (verdict answer)) }
{
    page.extend_from_slice(digits)?;
    page.push(b' ')?;
    page.extend_from_slice(source)?;
    page.extend_from_slice(b" as ")?;
    page.extend_from_slice(target)?;
    page.extend_from_slice(verdict_text(answer))?;
    Ok(())
}

/// The end of a cast's line.
fn verdict_text(answer: u32) -> &'static [u8]
    ensures { result.now ≡ codes " " ++ verdict answer ++ codes "\n" }
{
    match answer {
        0 => b" no\n",
        _ => b" yes\n",
    }
}

/// The name of what an operation works on.
pub(crate) fn name_of<'a>(variable: Var, hosts: &'a [Host], names: &'a [Bytes]) -> &'a [u8]
    requires { IsNamed hosts.now names.now variable }
    ensures { result.now ≡ name_of (map (λ host. host.name) hosts.now) names.now variable }
{
    match variable {
        Var::Host(host) => hosts[usize::from(host)].name.as_slice(),
        Var::Own(variable) => names[variable as usize].as_slice(),
    }
}
