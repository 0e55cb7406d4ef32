//! The table of refusals, as far as it needs no declarations.
ghost use Rattle.std.specs.Prelude.{◌≡◌};
ghost use Rattle.vsd_ast.specs.WellFormed.{AreWellFormed};

use crate::error::ScriptError;
use crate::script::read_script;
use crate::term::read_term;
use sqlite_items::Items;
use std::alloc::Global;
use std::test::Fail;
use vsd_ast::{Decls, Op, Script, Var};
use vsd_terms::Names;
use vsd_text::lex;

fn nothing_declared(alloc: Global) -> Decls
    ensures formed { AreWellFormed result }
    ensures rest { result.rest ≡ 0 }
{
    Decls {
        names: Names::new(alloc),
        list: Items::new(alloc),
        rest: 0,
    }
}

fn read(alloc: Global, text: &[u8]) -> Result<Script, ScriptError> {
    let Ok(tokens) = lex(alloc, text) else {
        return Err(ScriptError::Memory);
    };
    read_script(alloc, text, tokens.as_slice(), &nothing_declared(alloc))
}

/// Rows of an answer and its script. Each `^` stands for a line feed; the line tells which token shows the refusal.
static ROWS: &[u8] = b"refused 1 20 unexpected|cast
refused 3 20 unexpected|lane {^}^}
refused 2 20 unexpected|lane { repeat 2 {^} }
refused 2 20 unexpected|lane { repeat^0 { } }
refused 2 20 unexpected|lane { repeat^200001 { } }
refused 2 20 unexpected|lane { repeat^0000002 { } }
refused 2 20 unexpected|host a = int32^[]
refused 2 20 unexpected|host a =^System.Enum;
refused 1 20 unexpected|host a = object
refused 2 20 unexpected|host a = ^!0;
refused 2 21 unknown name|host a = [x]^y;
refused 2 21 unknown name|host a =^y;
refused 2 21 unknown name|lane { unload^x; }
refused 2 21 unknown name|host a = object; lane { unload^a; }
refused 2 21 unknown name|lane { load a = object; cast a^b; }
refused 2 21 unknown name|lane { load a = object; } lane { cast^a a; }
refused 2 21 unknown name|lane { load a = object; unload a; cast^a a; }
refused 2 21 unknown name|lane { call^s a; }
refused 3 21 unknown name|lane { load a = object; repeat 2 {^unload^a; } }
refused 2 22 twice|host a = string; host^a = object;
refused 2 22 twice|host a = string; lane { load^a = object; }
refused 2 22 twice|lane { load a = object; load^a = object; }
refused 3 22 twice|lane { repeat 2 {^load^a =^object; } }
refused 2 24 too many operations|lane { load x = object; repeat 200000 {^cast x x; } }
refused 2 24 too many operations|lane { load x = object; repeat 199999 { cast x x; }^cast^nobody x; }
refused 2 21 unknown name|lane { load x = object; } lane { repeat 100000 { repeat 2 { cast^a b; } } }
refused 2 29 too deep|lane { repeat 1 { repeat 1 { repeat 1 { repeat 1 { repeat 1 { repeat 1 { repeat 1 { repeat 1 {^repeat
refused 2 20 unexpected|host a =^System.Object<int32>;
refused 2 27 unknown method|site s = object::^M;
refused 1 20 unexpected|site s = object:^M;
ok|
";

/// What is answered to a script: `ok`, or its refusal.
fn answer(alloc: Global, script: &[u8]) -> Result<Vec<u8>, Fail> {
    match read(alloc, script) {
        Ok(_) => Ok(Vec::from_slice(alloc, b"ok")?),
        Err(error) => Ok(format!(in alloc; "{error}")?.into_bytes()),
    }
}

#[test]
fn refuses_at_the_token_that_shows_it(rt: HostRuntime) -> Result<(), Fail> {
    let mut expected = Vec::new(rt.alloc());
    let mut script = Vec::new(rt.alloc());
    let mut past = false;
    for byte in ROWS {
        if *byte == b'\n' {
            let found = answer(rt.alloc(), script.as_slice())?;
            assert!(rt; found.as_slice() == expected.as_slice());
            expected.clear();
            script.clear();
            past = false;
        } else if *byte == b'|' {
            past = true;
        } else if !past {
            expected.push(*byte)?;
        } else if *byte == b'^' {
            script.push(b'\n')?;
        } else {
            script.push(*byte)?;
        }
    }
    Ok(())
}

/// A text of so many statements of one kind, each in a line of its own.
fn repeated(alloc: Global, count: u32, before: &[u8], after: &[u8]) -> Result<Vec<u8>, Fail> {
    let mut text = Vec::new(alloc);
    for number in 0..count {
        text.extend_from_slice(before)?;
        text.push(b'0' + (number / 100 % 10) as u8)?;
        text.push(b'0' + (number / 10 % 10) as u8)?;
        text.push(b'0' + (number % 10) as u8)?;
        text.extend_from_slice(after)?;
    }
    Ok(text)
}

#[test]
fn counts_hosts_lanes_and_live_variables(rt: HostRuntime) -> Result<(), Fail> {
    let hosts = repeated(rt.alloc(), 257, b"host h", b" = object;\n")?;
    let found = answer(rt.alloc(), hosts.as_slice())?;
    assert!(rt; found.as_slice() == b"refused 257 25 too many hosts".as_slice());
    let mut lanes = Vec::new(rt.alloc());
    for _lane in 0..64 {
        lanes.extend_from_slice(b"lane { }\n")?;
    }
    let found = answer(rt.alloc(), lanes.as_slice())?;
    assert!(rt; found.as_slice() == b"ok".as_slice());
    lanes.extend_from_slice(b"lane")?;
    let found = answer(rt.alloc(), lanes.as_slice())?;
    assert!(rt; found.as_slice() == b"refused 65 25 too many lanes".as_slice());
    let mut live = Vec::new(rt.alloc());
    live.extend_from_slice(b"lane {\n")?;
    let loads = repeated(rt.alloc(), 33, b"load x", b" = object;\n")?;
    live.extend_from_slice(loads.as_slice())?;
    let found = answer(rt.alloc(), live.as_slice())?;
    assert!(rt; found.as_slice() == b"refused 34 23 too many live".as_slice());
    Ok(())
}

#[test]
fn writes_repeats_out(rt: HostRuntime) -> Result<(), Fail> {
    let text =
        b"host h = string; lane { repeat 2 { load x = object; repeat 2 { cast x h; } unload x; } }";
    let script = read(rt.alloc(), text)?;
    assert_eq!(rt; script.roots.len(), 2);
    let Some(lane) = script.lanes.get(0) else {
        return Ok(());
    };
    let source = Var::Own(0);
    let target = Var::Host(0);
    let load = Op::Load {
        variable: 0,
        root: 1,
    };
    let unload = Op::Unload { variable: 0 };
    let cast = Op::Cast { source, target };
    let wanted = [load, cast, cast, unload, load, cast, cast, unload];
    assert!(rt; lane.ops.as_slice() == wanted.as_slice());
    assert_eq!(rt; lane.names.len(), 1);
    Ok(())
}

#[test]
fn reads_a_term_before_a_bracket(rt: HostRuntime) -> Result<(), Fail> {
    let text = b"class [mscorlib]System.Object[] *";
    let Ok(tokens) = lex(rt.alloc(), text) else {
        return Ok(());
    };
    let decls = nothing_declared(rt.alloc());
    let read = read_term(rt.alloc(), text, tokens.as_slice(), 0, &decls)?;
    assert_eq!(rt; read.next, 5);
    Ok(())
}
