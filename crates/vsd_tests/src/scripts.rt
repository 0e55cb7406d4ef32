//! Which scripts over declared types are refused, where, and which methods their sites name.
use std::alloc::Global;
use std::test::Fail;
use vsd_ast::Script;
use vsd_decls::read_decls;
use vsd_grammar::Listed;
use vsd_script::{ScriptError, read_script, read_term};
use vsd_text::lex;

/// An interface with two methods `M` and one `K` between them, a class that implements it, an abstract class, a generic
/// interface, a generic class, and a class with eight parameters; lines 1 to 3 of each text.
static DECLARED: &[u8] =
    b"vsd 1\n.class interface abstract I { .method newslot abstract virtual void M() { } .method newslot abstract virtual int32 K() { } .method newslot abstract virtual void M(int32) { } } .class C implements I { .method newslot virtual void M() { } .method newslot virtual int32 K() { } .method newslot virtual void M(int32) { } } .class abstract A { .method abstract virtual void M() { } } .class interface abstract G<T> { .method newslot abstract virtual void M(!T) { } } .class B<T> { .method virtual void M(!T) { } } .class W<T0, T1, T2, T3, T4, T5, T6, T7> { }\n%%\n";

/// A term of nine nodes, which stands for each `@` of a row.
static NINE: &[u8] = b"W<object, object, object, object, object, object, object, object>";

/// Thirty-one loads, which stand for each `$` of a row.
static LOADS: &[u8] =
    b"load x1 = C; load x2 = C; load x3 = C; load x4 = C; load x5 = C; load x6 = C; load x7 = C; load x8 = C; load x9 = C; load x10 = C; load x11 = C; load x12 = C; load x13 = C; load x14 = C; load x15 = C; load x16 = C; load x17 = C; load x18 = C; load x19 = C; load x20 = C; load x21 = C; load x22 = C; load x23 = C; load x24 = C; load x25 = C; load x26 = C; load x27 = C; load x28 = C; load x29 = C; load x30 = C; load x31 = C;";

/// Rows of an answer and its script, which begins in line 4. Each `^` stands for a line feed.
static ROWS: &[u8] = b"ok|
ok 0 2 1 0|site s = I::M; site t = I::M#2; site u = I::K#1; site v = G<string>::M;
ok 0|site s = I::M#000001; host s = I;
20 5|site s = I::M#^0;
20 5|site s = I::M#^257;
20 5|site s = I::M#^0000001;
20 5|site s = I^;
20 5|host a = I^::M;
20 5|host a = C^[];
20 5|host a = G<int32^&>;
20 5|host a = [mscorlib]^System.Enum;
20 5|host a = string^<C>;
20 5|site s = I^::
ok|host a = [mscorlib]^System.Object;
21 5|host a = [mscorlib]^C;
21 5|host a = G<^c>;
21 5|host a =^D;
21 5|host c = C; lane { call^s c; }
21 5|site s = I::M; lane { call s^c; } host c = C;
21 5|site s = I::M; lane { load c = C; } lane { call s^c; }
21 5|host c = C; lane { unload^c; }
21 4|lane { unload x; }
22 4|host a = string; host a = object;
22 5|site s = I::M; site^s = I::K;
22 5|host c = C; lane { load^c = G<D>; }
22 5|host c = C; lane { $ load x = C; load^c = C; }
ok|lane { $ load x32 = object; }
23 4|lane { $ load x32 = object; load x33 = object; }
23 5|lane { $ repeat 2 { load^b = C; unload b; load^d = C; } }
ok|lane { load x = object; repeat 199999 { cast x x; } }
24 4|lane { load x = object; repeat 200000 { cast x x; } }
24 5|lane { load x = object; repeat 199999 { cast x x; } repeat 2 {^cast x x; } }
24 5|lane { load x = object; repeat 200000 { repeat 200000 {^cast x x; } } }
24 6|site s = I::M; lane { load a = C; repeat 2 { repeat 99998 { call s a; }^call s a;^call s a; } }
ok 0|site s = I::M; host c = C; host b = B<object>; lane { call s c; call s b; }
26 4|site s = I::M; host i = I; lane { call s i; }
26 5|site s = I::M; host a = A; lane { call s^a; }
26 5|site s = I::M; host a = A; lane { repeat 2 { call s^a; } }
26 5|site s = I::M; host o = object; lane { call s^o; }
26 5|site s = I::M; host g = G<C>; lane { call s^g; }
26 5|site s = I::M; lane { load a = C; repeat 2 { call s^a; unload a; load^a = I; } }
ok|host i = I; host a = A; lane { cast i a; }
27 4|site s = I::N;
27 5|site s = C::^M;
27 5|site s = A::^M;
27 5|site s = I::^N^#^2;
20 5|site s = C^;
27 5|site s = I::M#^3;
27 5|site s = I::K#^2;
27 5|site s = I::M#^256;
28 5|host a =^G^;
28 5|host a =^I^<C^>;
28 5|host a =^G<C,^C>;
28 6|host a =^W<C,^G>;
21 6|host a =^G<C,^D>;
ok|host a = G<G<G<G<G<G<G<G<G<G<G<G<G<G<G<C>>>>>>>>>>>>>>>;
29 5|host a = G<G<G<G<G<G<G<G<G<G<G<G<G<G<G<G^<^C>>>>>>>>>>>>>>>>;
21 5|host a = G<G<G<G<G<G<G<G<G<G<G<G<G<G<G<^D>>>>>>>>>>>>>>>;
ok|host a = W<@, @, @, @, @, @, G<G<G<G<G<G<G<C>>>>>>>, C>;
29 5|host a = W<@, @, @, @, @, @, @,^C>;
21 5|host a = W<@, @, @, @, @, @, @,^D>;
28 5|host a = W<@, @, @, @, @, @, @,^G>;
";

/// What is answered to a script: `ok` and the slot of each site, or the number and line of the refusal.
fn answer(alloc: Global, script: &[u8]) -> Result<Vec<u8>, Fail> {
    let mut text = Vec::new(alloc);
    text.extend_from_slice(DECLARED)?;
    text.extend_from_slice(script)?;
    let tokens = lex(alloc, text.as_slice())?;
    let decls = read_decls(alloc, text.as_slice(), tokens.as_slice())?;
    match read_script(alloc, text.as_slice(), tokens.as_slice(), &decls) {
        Ok(script) => slots(alloc, &script),
        Err(error) => shown(alloc, error),
    }
}

fn slots(alloc: Global, script: &Script) -> Result<Vec<u8>, Fail> {
    let mut text = Vec::new(alloc);
    text.extend_from_slice(b"ok")?;
    for site in script.sites.as_slice() {
        let slot = site.slot;
        text.extend_from_slice(format!(in alloc; " {slot}")?.as_bytes())?;
    }
    Ok(text)
}

fn shown(alloc: Global, error: ScriptError) -> Result<Vec<u8>, Fail> {
    let (number, line): (u32, u32) = match error {
        ScriptError::TooMany {
            line,
            what: Listed::Sites,
        } => return Ok(format!(in alloc; "25 {line} sites")?.into_bytes()),
        ScriptError::Unexpected { line } => (20, line),
        ScriptError::UnknownName { line } => (21, line),
        ScriptError::Twice { line } => (22, line),
        ScriptError::TooManyLive { line } => (23, line),
        ScriptError::TooManyOps { line } => (24, line),
        ScriptError::TooMany { line, what: _ } => (25, line),
        ScriptError::NotConcrete { line } => (26, line),
        ScriptError::UnknownMethod { line } => (27, line),
        ScriptError::Arity { line } => (28, line),
        ScriptError::TooDeep { line } => (29, line),
        ScriptError::Memory => (0, 0),
    };
    Ok(format!(in alloc; "{number} {line}")?.into_bytes())
}

/// What stands for a byte of a row's script.
fn piece(byte: u8) -> Option<&'static [u8]> {
    match byte {
        b'^' => Some(b"\n"),
        b'@' => Some(NINE),
        b'$' => Some(LOADS),
        _ => None,
    }
}

/// The script with a byte of its row more.
fn write(script: &mut Vec<u8>, byte: u8) -> Result<(), Fail> {
    match piece(byte) {
        Some(bytes) => script.extend_from_slice(bytes)?,
        None => script.push(byte)?,
    }
    Ok(())
}

#[test]
fn answers_each_row(rt: HostRuntime) -> Result<(), Fail> {
    let mut expected = Vec::new(rt.alloc());
    let mut script = Vec::new(rt.alloc());
    let mut past = false;
    for byte in ROWS {
        if *byte == b'\n' {
            let found = answer(rt.alloc(), script.as_slice())?;
            assert!(rt; found.as_slice() == expected.as_slice());
            expected.clear();
            script.clear();
            past = false;
        } else if *byte == b'|' {
            past = true;
        } else if past {
            write(&mut script, *byte)?;
        } else {
            expected.push(*byte)?;
        }
    }
    Ok(())
}

/// The 257th `site` is one too many.
#[test]
fn counts_sites(rt: HostRuntime) -> Result<(), Fail> {
    let mut script = Vec::new(rt.alloc());
    for number in 0..256u32 {
        let site = format!(in rt.alloc(); "site s{number} = I::M;\n")?;
        script.extend_from_slice(site.as_bytes())?;
    }
    script.extend_from_slice(b"host s256 = C;\n")?;
    let found = answer(rt.alloc(), script.as_slice())?;
    assert_eq!(rt; found.len(), 514);
    script.extend_from_slice(b"site\ns256 = I::M;")?;
    let found = answer(rt.alloc(), script.as_slice())?;
    assert!(rt; found.as_slice() == b"25 261 sites".as_slice());
    Ok(())
}

#[test]
fn a_bracket_ends_a_declared_term(rt: HostRuntime) -> Result<(), Fail> {
    let mut text = Vec::new(rt.alloc());
    text.extend_from_slice(DECLARED)?;
    text.extend_from_slice(b"class B<C>[]")?;
    let tokens = lex(rt.alloc(), text.as_slice())?;
    let decls = read_decls(rt.alloc(), text.as_slice(), tokens.as_slice())?;
    let read = read_term(
        rt.alloc(),
        text.as_slice(),
        tokens.as_slice(),
        decls.rest,
        &decls,
    )?;
    assert_eq!(rt; read.next.wrapping_sub(decls.rest), 5);
    Ok(())
}
