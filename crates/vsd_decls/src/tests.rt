//! The reader on whole texts: each production, each refusal at its limit and one past it, and the trees of a longer text.
use crate::{Counted, DeclError, Form, read_decls};
use std::alloc::Global;
use std::test::Fail;
use vsd_ast::{Access, Decl, Decls, Implementer, Located, Method, Override, Param, Sign};
use vsd_terms::{Builtin, Term};
use vsd_text::{Token, lex};

fn declared(alloc: Global, text: &[u8]) -> Result<Result<Decls, DeclError>, Fail> {
    let tokens = lex(alloc, text)?;
    Ok(read_decls(alloc, text, tokens.as_slice()))
}

/// Why a text is refused, if it is.
fn refusal(alloc: Global, text: &[u8]) -> Result<Option<DeclError>, Fail> {
    match declared(alloc, text)? {
        Ok(_) => Ok(None),
        Err(error) => Ok(Some(error)),
    }
}

/// A piece so many times, in which `#` is the number of the time, from 0.
fn filled(alloc: Global, piece: &[u8], times: u32) -> Result<Vec<u8>, Fail> {
    let mut text = Vec::new(alloc);
    for time in 0..times {
        for byte in piece {
            if *byte == b'#' {
                text.extend_from_slice(format!(in alloc; "{time}")?.as_bytes())?;
            } else {
                text.push(*byte)?;
            }
        }
    }
    Ok(text)
}

/// Why a text with these parts is refused, which begin in its second line.
fn of_parts(alloc: Global, parts: [&[u8]; 3]) -> Result<Option<DeclError>, Fail> {
    let mut text = Vec::new(alloc);
    text.extend_from_slice(b"vsd 1\n")?;
    for part in parts {
        text.extend_from_slice(part)?;
    }
    text.extend_from_slice(b"\n%%\n")?;
    refusal(alloc, text.as_slice())
}

/// Why these items are refused.
fn of_items(alloc: Global, items: &[u8]) -> Result<Option<DeclError>, Fail> {
    of_parts(alloc, [b"", items, b""])
}

/// Why these members of a class with the parameters `T` and `u v` are refused.
fn of_members(alloc: Global, members: &[u8]) -> Result<Option<DeclError>, Fail> {
    of_parts(alloc, [b".class C`2<T, 'u v'> {", members, b"}"])
}

const fn unsupported(what: Form) -> Option<DeclError> {
    Some(DeclError::Unsupported { line: 2, what })
}

const fn too_many(what: Counted) -> Option<DeclError> {
    Some(DeclError::TooMany { line: 2, what })
}

const UNEXPECTED: Option<DeclError> = Some(DeclError::Unexpected { line: 2 });

const TOO_DEEP: Option<DeclError> = Some(DeclError::TooDeep { line: 2 });

#[test]
fn items_of_each_kind(rt: HostRuntime) -> Result<(), Fail> {
    let cases: [(&[u8], Option<DeclError>); 46] = [
        (b"", None),
        (b".class A { }", None),
        (
            b".class public private abstract sealed interface auto sequential explicit ansi unicode autochar beforefieldinit serializable specialname rtspecialname import A { }",
            None,
        ),
        (
            b".class virtual { } .class extends { } .class 'a b' { } .class class { } .class int32 { }",
            None,
        ),
        (
            b".class A`3<+ T, - U, 'v w'> extends class B`1<!T> implements valuetype C, [x]System.Object, D { }",
            None,
        ),
        (
            b".class A extends object implements string, System.ValueType { }",
            None,
        ),
        (b".class A extends int32 { }", UNEXPECTED),
        (b".class A<T> extends !T { }", UNEXPECTED),
        (b".class A implements unsigned int8 { }", UNEXPECTED),
        (b".class A implements { }", UNEXPECTED),
        (b".class { }", UNEXPECTED),
        (b".class '' { }", UNEXPECTED),
        (b".class .a { }", UNEXPECTED),
        (b".class A<> { }", UNEXPECTED),
        (b".class A<T,> { }", UNEXPECTED),
        (b".class A implements B extends C { }", UNEXPECTED),
        (b".class A extends System.Object<int32> { }", UNEXPECTED),
        (
            b".assembly extern X { .ver 1 : 0 } .assembly Y { } .module Y.dll .imagebase 1 .file alignment 2 .stackreserve 3 .subsystem 4 .corflags 5 .custom 6 .field int32 x .method static void .ctor() { { } } .data 7 .mresource 8 { } .permissionset 9 .language 'x' .line 10 .vtfixup 11",
            None,
        ),
        (b".property int32 x", UNEXPECTED),
        (b".override x", UNEXPECTED),
        (b".method .cctor .ctor .class A { }", None),
        (b".data }", UNEXPECTED),
        (b".data { %%", UNEXPECTED),
        (b"A", UNEXPECTED),
        (b"public", UNEXPECTED),
        (b".namespace N { }", unsupported(Form::Namespace)),
        (b".class extern A { }", unsupported(Form::TypeForwarding)),
        (b".class public extern { }", None),
        (b".class nested A { }", unsupported(Form::Nested)),
        (b".class public nested A { }", unsupported(Form::Nested)),
        (b".class A extends B/C { }", unsupported(Form::Nested)),
        (b".class A extends object/C { }", UNEXPECTED),
        (b".class A extends System.Enum { }", unsupported(Form::Enum)),
        (
            b".class A extends [x]'System.Enum' { }",
            unsupported(Form::Enum),
        ),
        (b".class System.Enum { }", None),
        (
            b".class A extends System.MulticastDelegate { }",
            unsupported(Form::Delegate),
        ),
        (
            b".class A implements System.Delegate { }",
            unsupported(Form::Delegate),
        ),
        (b".class A extends [x]B { }", unsupported(Form::ForeignType)),
        (
            b".class A extends [x]int32 { }",
            unsupported(Form::ForeignType),
        ),
        (b".class A<class T> { }", unsupported(Form::Constraint)),
        (
            b".class A<+ valuetype T> { }",
            unsupported(Form::Constraint),
        ),
        (b".class A<.ctor T> { }", unsupported(Form::Constraint)),
        (b".class A<T, (B) U> { }", unsupported(Form::Constraint)),
        (b".class A extends B[] { }", unsupported(Form::Array)),
        (b".class A extends B& { }", unsupported(Form::Pointer)),
        (b".class A extends method { }", unsupported(Form::Pointer)),
    ];
    for (items, wanted) in cases {
        assert_eq!(rt; of_items(rt.alloc(), items)?, wanted);
    }
    Ok(())
}

#[test]
fn members_of_each_kind(rt: HostRuntime) -> Result<(), Fail> {
    let cases: [(&[u8], Option<DeclError>); 60] = [
        (
            b".field int32 x .property y { } .event z { } .custom a .pack 1 .size 2 .param [1] .interfaceimpl b .data c .permissionset d .language e .line 3",
            None,
        ),
        (
            b".method public private family assembly famorassem famandassem privatescope final virtual strict hidebysig newslot abstract specialname rtspecialname reqsecobj instance default void M() cil managed { }",
            None,
        ),
        (
            b".method virtual !0 M(!T, !1 x, !'u v' 'y z', [in] [out][opt] object, [in]string in) { }",
            None,
        ),
        (
            b".method virtual unsigned int8 M(uint16, int64, float32, bool, char, class D`2<!0, int32>, [x]System.ValueType) { }",
            None,
        ),
        (
            b".method virtual void M(void) { } .method virtual class int32 default() { } .method virtual instance instance virtual() { }",
            None,
        ),
        (
            b".method virtual void M() { { } .override I::M .override method instance !7 class I`1<!T>::M(!0) } .override method void I::N() with method instance void C::M() .override string::N with void C::M(!T)",
            None,
        ),
        (
            b".method virtual void M() { { .override } ; .class %%",
            UNEXPECTED,
        ),
        (
            b".method virtual void M() { .class .override I::M ( ) . { \"}\" } }",
            None,
        ),
        (b".method static void M<T>(int32[]) ... { }", UNEXPECTED),
        (b".method static void .ctor<T>(int32[]) { }", None),
        (b".method void M() { { %%", UNEXPECTED),
        (b".method virtual void M() { } }", UNEXPECTED),
        (b".method virtual void M() . { }", UNEXPECTED),
        (b".method virtual void M() .x { }", UNEXPECTED),
        (b".method virtual void M() 'cil' { }", UNEXPECTED),
        (b".method virtual void .ctor() { }", UNEXPECTED),
        (b".method virtual void M(int32,) { }", UNEXPECTED),
        (b".method virtual void M(,) { }", UNEXPECTED),
        (b".method virtual void M(int32 x y) { }", UNEXPECTED),
        (b".method virtual void M([in int32) { }", UNEXPECTED),
        (b".method virtual void M() ;", UNEXPECTED),
        (b".method virtual unsigned uint8 M() { }", UNEXPECTED),
        (b".method virtual !2 M() { }", UNEXPECTED),
        (b".method virtual !00 M() { }", UNEXPECTED),
        (b".method virtual !V M() { }", UNEXPECTED),
        (b".method virtual static void M() { }", UNEXPECTED),
        (b".method abstract void M() { }", UNEXPECTED),
        (b".override I::M", UNEXPECTED),
        (b".override int32::M with void C::M()", UNEXPECTED),
        (b".override !T::M with void C::M()", UNEXPECTED),
        (b".override I::M<int32> with void C::M()", UNEXPECTED),
        (b".override method !T I::M() with void C::M()", UNEXPECTED),
        (b".override method !8 I::M() with void C::M()", UNEXPECTED),
        (b".override method void I::M(!7) with !0 C::M(!1)", None),
        (b".override method void I::M() with !2 C::M()", UNEXPECTED),
        (
            b".override method void I::M() with method void C::M",
            UNEXPECTED,
        ),
        (b".module x", UNEXPECTED),
        (b"int32", UNEXPECTED),
        (b".namespace N { }", unsupported(Form::Namespace)),
        (b".class D { }", unsupported(Form::Nested)),
        (
            b".method virtual void M(D/E) { }",
            unsupported(Form::Nested),
        ),
        (
            b".method virtual void M<T>() { }",
            unsupported(Form::GenericMethod),
        ),
        (
            b".method virtual !!0 M() { }",
            unsupported(Form::GenericMethod),
        ),
        (b".method virtual int32[] M() { }", unsupported(Form::Array)),
        (
            b".method virtual void M(!T[]) { }",
            unsupported(Form::Array),
        ),
        (
            b".method virtual int32& M() { }",
            unsupported(Form::Pointer),
        ),
        (
            b".method virtual int32* M() { }",
            unsupported(Form::Pointer),
        ),
        (
            b".method virtual void M(method) { }",
            unsupported(Form::Pointer),
        ),
        (
            b".method virtual native int M() { }",
            unsupported(Form::NativeInt),
        ),
        (
            b".method virtual typedref M() { }",
            unsupported(Form::TypedReference),
        ),
        (
            b".method virtual int32 modreq(D) M() { }",
            unsupported(Form::Modifier),
        ),
        (
            b".method virtual int32 modopt(D) M() { }",
            unsupported(Form::Modifier),
        ),
        (
            b".method virtual int32 marshal(bool) M() { }",
            unsupported(Form::Marshal),
        ),
        (
            b".method virtual vararg void M() { }",
            unsupported(Form::Vararg),
        ),
        (
            b".method virtual instance default vararg void M() { }",
            unsupported(Form::Vararg),
        ),
        (
            b".method virtual void M(...) { }",
            unsupported(Form::Vararg),
        ),
        (
            b".override method vararg void I::M() with void C::M()",
            unsupported(Form::Vararg),
        ),
        (
            b".override method void [x]System.Object::M() with void C::M()",
            None,
        ),
        (
            b".override method int32 [x]System.Object::M() with void C::M()",
            unsupported(Form::Array),
        ),
        (
            b".method virtual void M([in] ...) { }",
            unsupported(Form::Vararg),
        ),
    ];
    for (members, wanted) in cases {
        assert_eq!(rt; of_members(rt.alloc(), members)?, wanted);
    }
    Ok(())
}

#[test]
fn methods_of_interfaces_and_lines(rt: HostRuntime) -> Result<(), Fail> {
    let cases: [(&[u8], Option<DeclError>); 14] = [
        (b"", Some(DeclError::Unexpected { line: 1 })),
        (b"vsd", Some(DeclError::Unexpected { line: 1 })),
        (b"\nvsd 2 %%", Some(DeclError::Unexpected { line: 2 })),
        (b"'vsd' 1 %%", Some(DeclError::Unexpected { line: 1 })),
        (b"vsd 01 %%", Some(DeclError::Unexpected { line: 1 })),
        (b"vsd\n1\n\n", Some(DeclError::Unexpected { line: 2 })),
        (b"vsd 1 %% what stands here is not read } %%", None),
        (
            b"vsd 1\n.class interface public abstract I { .method public newslot virtual instance void M() cil managed { } }\n%%",
            unsupported(Form::DefaultInterfaceMethod),
        ),
        (
            b"vsd 1 .class interface I {\n.method static\nvoid M",
            unsupported(Form::StaticInterfaceMethod),
        ),
        (
            b"vsd 1 .class interface I {\n.method abstract\nvoid M",
            UNEXPECTED,
        ),
        (
            b"vsd 1 .class interface I {\n.method abstract static\nvoid M",
            unsupported(Form::StaticInterfaceMethod),
        ),
        (
            b"vsd 1 .class I {\n.method virtual static\nvoid M",
            UNEXPECTED,
        ),
        (b"vsd 1\n.class A extends\n", UNEXPECTED),
        (
            b"vsd 1\n\n.class A<T> { .method virtual int32\n[] M() { } }\n%%",
            Some(DeclError::Unsupported {
                line: 4,
                what: Form::Array,
            }),
        ),
    ];
    for (text, wanted) in cases {
        assert_eq!(rt; refusal(rt.alloc(), text)?, wanted);
    }
    Ok(())
}

#[test]
fn each_limit_and_one_past_it(rt: HostRuntime) -> Result<(), Fail> {
    // What stands before a piece that is repeated, the piece, what stands after it, how many times it may stand, and
    // what one more shows.
    let cases: [(&[u8], &[u8], &[u8], u32, Option<DeclError>); 14] = [
        (b"", b".class A { }", b"", 1024, too_many(Counted::Types)),
        (
            b".class A {",
            b".method virtual B# M(C#, D#, E#, F#, G#, H#, I#) { }",
            b"}",
            255,
            too_many(Counted::Names),
        ),
        (
            b".class A<",
            b"T, ",
            b"T> { }",
            7,
            too_many(Counted::Parameters),
        ),
        (
            b".class A implements ",
            b"I, ",
            b"I { }",
            63,
            too_many(Counted::Interfaces),
        ),
        (
            b".class A {",
            b".method virtual void M() { }",
            b"}",
            256,
            too_many(Counted::Methods),
        ),
        (
            b".class A {",
            b".override I::M with void A::M()",
            b"}",
            256,
            too_many(Counted::Overrides),
        ),
        (
            b".class A { .method virtual void M() {",
            b" .override I::M",
            b"} }",
            256,
            too_many(Counted::Overrides),
        ),
        (
            b".class A { .method virtual void M(",
            b"A, ",
            b"A) { } }",
            15,
            too_many(Counted::Arguments),
        ),
        (
            b".class A { .override method void I::M(",
            b"A, ",
            b"A) with void A::M() }",
            15,
            too_many(Counted::Arguments),
        ),
        (b".class ", b"a", b" { }", 255, too_many(Counted::NameBytes)),
        (
            b".class A<",
            b"a",
            b"> { }",
            255,
            too_many(Counted::NameBytes),
        ),
        (
            b".class A { .method virtual void ",
            b"a",
            b"() { } }",
            255,
            too_many(Counted::NameBytes),
        ),
        (
            b".class A extends ",
            b"B`1<",
            b"int32>>>>>>>>>>>>>>> { }",
            15,
            TOO_DEEP,
        ),
        (
            b".class A extends D<",
            b"int32, ",
            b"string> { }",
            62,
            TOO_DEEP,
        ),
    ];
    for (before, piece, after, most, shows) in cases {
        assert_eq!(rt; of_filled(rt.alloc(), before, piece, most, after)?, None);
        let past = most.saturating_add(1);
        assert_eq!(rt; of_filled(rt.alloc(), before, piece, past, after)?, shows);
    }
    Ok(())
}

/// Why a text is refused that has a piece so many times between what stands before and after it.
fn of_filled(
    alloc: Global,
    before: &[u8],
    piece: &[u8],
    times: u32,
    after: &[u8],
) -> Result<Option<DeclError>, Fail> {
    let mut text = Vec::new(alloc);
    text.extend_from_slice(b"vsd 1\n")?;
    text.extend_from_slice(before)?;
    let pieces = filled(alloc, piece, times)?;
    text.extend_from_slice(pieces.as_slice())?;
    text.extend_from_slice(after)?;
    text.extend_from_slice(b"\n%%\n")?;
    refusal(alloc, text.as_slice())
}

/// A refusal in the third line of a text.
const fn unexpected() -> DeclError {
    DeclError::Unexpected { line: 3 }
}

const fn form(what: Form) -> DeclError {
    DeclError::Unsupported { line: 3, what }
}

const fn many(what: Counted) -> DeclError {
    DeclError::TooMany { line: 3, what }
}

const fn deep() -> DeclError {
    DeclError::TooDeep { line: 3 }
}

#[test]
fn two_refusals_at_one_token(rt: HostRuntime) -> Result<(), Fail> {
    let methods = filled(rt.alloc(), b".method virtual void M() { }", 256)?;
    let named = filled(
        rt.alloc(),
        b".method virtual B# M(C#, D#, E#, F#, G#, H#, I#) { }",
        255,
    )?;
    let nodes = filled(rt.alloc(), b"int32, ", 63)?;
    let levels = filled(rt.alloc(), b"B<", 15)?;
    let long = filled(rt.alloc(), b"a", 256)?;
    let eight: [&[u8]; 2] = [b".class A<T, T, T, T, T, T, T, T", b",\n"];
    let sixteen: [&[u8]; 2] = [
        b".class A { .method virtual void M(A, A, A, A, A, A, A, A, A, A, A, A, A, A, A, A",
        b",\n",
    ];
    let of_methods: [&[u8]; 2] = [b".class A {", methods.as_slice()];
    let of_levels: [&[u8]; 2] = [b".class A extends ", levels.as_slice()];
    let of_nodes: [&[u8]; 2] = [b".class A extends B<", nodes.as_slice()];
    let of_names: [&[u8]; 2] = [b".class A {", named.as_slice()];
    let cases: [([&[u8]; 2], &[u8], DeclError); 21] = [
        (eight, b"T", many(Counted::Parameters)),
        (eight, b"+ 1", many(Counted::Parameters)),
        (eight, b">", unexpected()),
        (eight, b"''", unexpected()),
        (eight, b"class", form(Form::Constraint)),
        (eight, long.as_slice(), many(Counted::Parameters)),
        (sixteen, b"B", many(Counted::Arguments)),
        (sixteen, b")", unexpected()),
        (sixteen, b"...", form(Form::Vararg)),
        (sixteen, b"System.Delegate", form(Form::Delegate)),
        (sixteen, long.as_slice(), many(Counted::Arguments)),
        (
            of_methods,
            b"\n.method virtual void M",
            many(Counted::Methods),
        ),
        (of_methods, b"\n.method virtual static", unexpected()),
        (of_methods, b"\n.method public abstract", unexpected()),
        (of_levels, b"B\n<", deep()),
        (of_levels, b"B\n[", form(Form::Array)),
        (of_levels, b"B\n/", form(Form::Nested)),
        (of_nodes, b"\nint32", deep()),
        (of_nodes, b"\nA", deep()),
        (
            of_nodes,
            long.as_slice(),
            DeclError::TooMany {
                line: 2,
                what: Counted::NameBytes,
            },
        ),
        (
            of_names,
            b".method virtual void M(A, A0, A1, A2, A3, A4, A5, A6,\nA7",
            many(Counted::Names),
        ),
    ];
    for (before, after, wanted) in cases {
        let [first, second] = before;
        assert_eq!(rt; of_parts(rt.alloc(), [first, second, after])?, Some(wanted));
    }
    Ok(())
}

const LONG: &[u8] = b"vsd 1
.assembly extern System.Runtime { .publickeytoken = (B0 3F 5F 7F 11 D5 0A 3A ) .ver 8:0:0:0 }
.assembly Shapes { .hash algorithm 0x00008004 .ver 1:0:0:0 }
.module Shapes.dll
// MVID: {11111111-2222-3333-4444-555555555555}
.imagebase 0x00400000
.class interface public abstract auto ansi beforefieldinit IShape
{
  .method public hidebysig newslot abstract virtual
          instance int32 Sides() cil managed
  {
  } // end of method IShape::Sides
}
.class public auto ansi beforefieldinit Square
       extends [System.Runtime]System.Object
       implements IShape
{
  .field private int32 n
  .method public hidebysig newslot virtual final
          instance int32 Sides() cil managed
  {
    .maxstack 8
    IL_0000: ldc.i4.4
    IL_0001: ret
  }
  .method public hidebysig specialname rtspecialname
          instance void .ctor() cil managed
  {
    .maxstack 8
    IL_0000: ldarg.0
    IL_0001: call instance void [System.Runtime]System.Object::.ctor()
    IL_0006: ret
  }
}
%%
site s = IShape::Sides; host q = Square; lane { call s q; }
";

#[test]
fn the_trees_of_a_longer_text(rt: HostRuntime) -> Result<(), Fail> {
    let tokens = lex(rt.alloc(), LONG)?;
    let Decls { names, list, rest } = read_decls(rt.alloc(), LONG, tokens.as_slice())?;
    assert_eq!(rt; names.len(), 2);
    assert_eq!(rt; names.find(b"IShape"), Some(0));
    assert_eq!(rt; names.find(b"Square"), Some(1));
    assert!(rt; begins_at(tokens.as_slice(), rest, 36));
    assert!(rt; are_shapes(list.as_slice()));
    Ok(())
}

/// Whether the token of this index stands on this line.
fn begins_at(tokens: &[Token], index: u32, line: u32) -> bool {
    match tokens.get(index as usize) {
        Some(token) => token.line == line,
        None => false,
    }
}

fn are_shapes(list: &[Decl]) -> bool {
    match list {
        [shape, square] => is_shape(shape) && is_square(square),
        _ => false,
    }
}

fn is_shape(decl: &Decl) -> bool {
    decl.name == 0 && decl.line == 7 && decl.is_interface && decl.is_abstract && decl.base.is_none()
}

fn is_square(decl: &Decl) -> bool {
    if decl.name != 1 || decl.line != 14 || decl.is_interface || decl.sealed {
        return false;
    }
    match (decl.interfaces.as_slice(), decl.methods.as_slice()) {
        ([interface], [method]) => interface.line == 16 && is_sides(method),
        _ => false,
    }
}

fn is_sides(method: &Method) -> bool {
    if method.line != 19 || !method.newslot || !method.is_final || method.is_abstract {
        return false;
    }
    method.access == Access::Public
        && method.name.as_slice() == b"Sides".as_slice()
        && matches!(method.signature.result, Some(Term::Builtin(Builtin::Int32)))
}

const GENERIC: &[u8] = b"vsd 1 .class public sealed C`2<+ T, - U, V> extends [x]System.ValueType
implements class I`1<!U>, J { .method private public virtual valuetype K`1<!2> M(string, !T) { { }
.override method !1 I`1<!U>::N(!0) } .method family virtual void O() { }
.override J::N with instance !0 class C::O() } %%";

#[test]
fn the_trees_of_parameters_and_overrides(rt: HostRuntime) -> Result<(), Fail> {
    let tokens = lex(rt.alloc(), GENERIC)?;
    let Decls { names, list, rest } = read_decls(rt.alloc(), GENERIC, tokens.as_slice())?;
    assert_eq!(rt; rest as usize, tokens.len());
    assert_eq!(rt; names.len(), 5);
    assert_eq!(rt; names.find(b"K`1"), Some(3));
    assert!(rt; are_generic(list.as_slice()));
    Ok(())
}

fn are_generic(list: &[Decl]) -> bool {
    match list {
        [decl] => {
            are_signed(decl.params.as_slice())
                && are_named(decl.interfaces.as_slice())
                && are_methods(decl.methods.as_slice())
                && are_overrides(decl.overrides.as_slice())
        }
        _ => false,
    }
}

fn are_signed(params: &[Param]) -> bool {
    match params {
        [t, u, v] => t.sign == Sign::Plus && u.sign == Sign::Minus && v.sign == Sign::Plain,
        _ => false,
    }
}

fn are_named(interfaces: &[Located]) -> bool {
    match interfaces {
        [first, _] => names_parameter(&first.term, 1, 1) && first.line == 2,
        _ => false,
    }
}

/// Whether the term is the named type of this number with this parameter as its one argument.
fn names_parameter(term: &Term, number: u16, place: u8) -> bool {
    match term {
        Term::Named { name, args } => match args.as_slice() {
            [Term::Param(found)] => *name == number && *found == place,
            _ => false,
        },
        _ => false,
    }
}

fn are_methods(methods: &[Method]) -> bool {
    match methods {
        [first, second] => {
            first.access == Access::Public
                && second.access == Access::Other
                && first.signature.arguments.len() == 2
                && match &first.signature.result {
                    Some(term) => names_parameter(term, 3, 2),
                    None => false,
                }
        }
        _ => false,
    }
}

fn are_overrides(overrides: &[Override]) -> bool {
    match overrides {
        [own, named] => {
            matches!(own.body, Implementer::Own(0))
                && own.signature.is_some()
                && own.line == 3
                && !matches!(named.body, Implementer::Own(_))
                && named.signature.is_none()
                && named.line == 4
        }
        _ => false,
    }
}
