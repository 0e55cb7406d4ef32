//! Each built-in type in every spelling, and the text that it is printed as.
use std::alloc::Global;
use std::test::Fail;
use vsd_decls::read_decls;
use vsd_script::read_term;
use vsd_terms::{Term, print};
use vsd_text::lex;

/// The text of the built-in type that is spelled so after no declarations, and no bytes where none is.
fn printed(alloc: Global, spelling: &[u8]) -> Result<Vec<u8>, Fail> {
    let mut text = Vec::new(alloc);
    text.extend_from_slice(b"vsd 1\n%%\n")?;
    text.extend_from_slice(spelling)?;
    let tokens = lex(alloc, text.as_slice())?;
    let decls = read_decls(alloc, text.as_slice(), tokens.as_slice())?;
    let read = read_term(
        alloc,
        text.as_slice(),
        tokens.as_slice(),
        decls.rest,
        &decls,
    )?;
    if read.next as usize != tokens.len() {
        return Ok(Vec::new(alloc));
    }
    match read.term {
        Term::Builtin(builtin) => Ok(print(alloc, &Term::Builtin(builtin), &decls.names)?),
        _ => Ok(Vec::new(alloc)),
    }
}

#[test]
fn prints_each_built_in_type(rt: HostRuntime) -> Result<(), Fail> {
    let table: [(&[u8], &[u8]); 39] = [
        (b"bool", b"bool"),
        (b"char", b"char"),
        (b"int8", b"int8"),
        (b"int16", b"int16"),
        (b"int32", b"int32"),
        (b"int64", b"int64"),
        (b"uint8", b"uint8"),
        (b"unsigned int8", b"uint8"),
        (b"uint16", b"uint16"),
        (b"unsigned int16", b"uint16"),
        (b"uint32", b"uint32"),
        (b"unsigned int32", b"uint32"),
        (b"uint64", b"uint64"),
        (b"unsigned int64", b"uint64"),
        (b"float32", b"float32"),
        (b"float64", b"float64"),
        (b"object", b"object"),
        (b"System.Object", b"object"),
        (b"'System.Object'", b"object"),
        (b"[mscorlib]System.Object", b"object"),
        (b"class System.Object", b"object"),
        (b"class [mscorlib]System.Object", b"object"),
        (b"valuetype System.Object", b"object"),
        (b"valuetype [mscorlib]System.Object", b"object"),
        (b"string", b"string"),
        (b"System.String", b"string"),
        (b"'System.String'", b"string"),
        (b"[mscorlib]System.String", b"string"),
        (b"class System.String", b"string"),
        (b"class [mscorlib]System.String", b"string"),
        (b"valuetype System.String", b"string"),
        (b"valuetype [mscorlib]System.String", b"string"),
        (b"System.ValueType", b"System.ValueType"),
        (b"'System.ValueType'", b"System.ValueType"),
        (b"[mscorlib]System.ValueType", b"System.ValueType"),
        (b"class System.ValueType", b"System.ValueType"),
        (b"class [mscorlib]System.ValueType", b"System.ValueType"),
        (b"valuetype System.ValueType", b"System.ValueType"),
        (b"valuetype [mscorlib]System.ValueType", b"System.ValueType"),
    ];
    for (spelling, expected) in table {
        assert!(rt; printed(rt.alloc(), spelling)?.as_slice() == expected);
    }
    Ok(())
}
