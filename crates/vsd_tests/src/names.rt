//! Names of no byte, of 255 and of 256 bytes at every place where a name may stand, and what may follow a target's name.
use std::alloc::Global;
use std::test::Fail;
use vsd_ast::Decls;
use vsd_decls::{DeclError, read_decls};
use vsd_grammar::{Counted, Form};
use vsd_script::{ScriptError, read_script};
use vsd_text::lex;

/// What is answered to a text: that it is read, or the number and the line of its refusal.
#[derive(Clone, Copy, Debug, PartialEq, Eq)]
enum Answer {
    Read,
    Refused { number: u32, line: u32 },
    /// Any other.
    Other,
}

/// The refusal of this number at a name of declarations, which stands in the third line.
const fn declared(number: u32) -> Answer {
    Answer::Refused { number, line: 3 }
}

/// The refusal of this number at a name of a script, which stands in the fifth line.
const fn scripted(number: u32) -> Answer {
    Answer::Refused { number, line: 5 }
}

// In each row `~` stands for the name, `$` for the name of 255 bytes, and `^` for a line feed.

/// Places of a name among the items of a text.
static IN_ITEMS: [&[u8]; 20] = [
    b".class^~^{ }",
    b".class public^~^{ }",
    b".class A<^~^> { }",
    b".class A<+^~^> { }",
    b".class A<T, -^~^> { }",
    b".class A<T,^~^, U> { }",
    b".class A extends^~^{ }",
    b".class A extends class^~^{ }",
    b".class A extends valuetype^~^{ }",
    b".class A extends [^~^]System.Object { }",
    b".class A extends class [^~^]System.Object { }",
    b".class A implements^~^{ }",
    b".class A implements I,^~^{ }",
    b".class A implements I, [^~^]System.Object { }",
    b".class A extends B<^~^> { }",
    b".class A extends B<int32, class^~^> { }",
    b".class A extends^~^<int32> { }",
    b".class A extends B<[^~^]System.Object> { }",
    b".class A implements B<B<^~^>> { }",
    b".class A<^~^> extends B<!~> { }",
];

/// Places of a name among the members of a class.
static IN_MEMBERS: [&[u8]; 38] = [
    b".method virtual^~^M() { }",
    b".method virtual class^~^M() { }",
    b".method virtual [^~^]System.Object M() { }",
    b".method virtual void^~^() { }",
    b".method virtual void M(^~^) { }",
    b".method virtual void M(int32,^~^) { }",
    b".method virtual void M([in]^~^) { }",
    b".method virtual void M([^~^]System.Object) { }",
    b".method virtual void M([out] [^~^]System.Object) { }",
    b".method virtual void M(B<^~^>) { }",
    b".method virtual void M(int32^~^) { }",
    b".method virtual void M(!T^~^, int32) { }",
    b".override^~^::N with void A::M()",
    b".override [^~^]System.Object::N with void A::M()",
    b".override I<^~^>::N with void A::M()",
    b".override I::^~^with void A::M()",
    b".override method^~^I::N() with void A::M()",
    b".override method void^~^::N() with void A::M()",
    b".override method void [^~^]System.Object::N() with void A::M()",
    b".override method void I::^~^() with void A::M()",
    b".override method void I::N(^~^) with void A::M()",
    b".override method void I::N(int32^~^) with void A::M()",
    b".override I::N with^~^A::M()",
    b".override I::N with void^~^::M()",
    b".override I::N with method void class^~^::M()",
    b".override I::N with void [^~^]System.Object::M()",
    b".override I::N with void A::^~^()",
    b".override I::N with void A::M(^~^)",
    b".override I::N with void A::M(int32^~^)",
    b".method virtual void M() { .override^~^::N }",
    b".method virtual void M() { .override [^~^]System.Object::N }",
    b".method virtual void M() { .override I::^~^}",
    b".method virtual void M() { .override method^~^I::N() }",
    b".method virtual void M() { .override method void^~^::N() }",
    b".method virtual void M() { .override method void [^~^]System.Object::N() }",
    b".method virtual void M() { .override method void I::^~^() }",
    b".method virtual void M() { .override method void I::N(^~^) }",
    b".method virtual void M() { .override method void I::N(int32^~^) }",
];

/// Places of a name after a scope.
static AFTER_SCOPES: [&[u8]; 20] = [
    b".class A extends [x]^~^{ }",
    b".class A extends class [x]^~^{ }",
    b".class A extends valuetype [x]^~^{ }",
    b".class A implements [x]^~^{ }",
    b".class A implements I, [x]^~^{ }",
    b".class A extends B<[x]^~^> { }",
    b".class A extends B<int32, class [x]^~^> { }",
    b".class A { .method virtual [x]^~^M() { } }",
    b".class A { .method virtual void M([x]^~^) { } }",
    b".class A { .method virtual void M([in] [x]^~^) { } }",
    b".class A { .method virtual void M(int32, class [x]^~^) { } }",
    b".class A { .override [x]^~^::N with void A::M() }",
    b".class A { .override method [x]^~^I::N() with void A::M() }",
    b".class A { .override method void [x]^~^::N() with void A::M() }",
    b".class A { .override method void I::N([x]^~^) with void A::M() }",
    b".class A { .override I::N with [x]^~^A::M() }",
    b".class A { .override I::N with void [x]^~^::M() }",
    b".class A { .override I::N with void A::M([x]^~^) }",
    b".class A { .method virtual void M() { .override [x]^~^::N } }",
    b".class A { .method virtual void M() { .override method void [x]^~^::N() } }",
];

/// Places where the name of a parameter is asked for and none has this name.
static NO_PARAMETERS: [&[u8]; 4] = [
    b".class A<T> extends B<!^~^> { }",
    b".class A<T> { .method virtual void M(!^~^) { } }",
    b".class A<T> { .override method void I::N(!^~^) with void A::M() }",
    b".class A<T> { .override I::N with void A::M(!^~^) }",
];

/// Places where a name is passed over.
static PASSED_OVER: [&[u8]; 6] = [
    b".assembly^~^{ }",
    b".field int32^~^",
    b".method void^~^() { }",
    b".class A { .method void^~^([x]~) { } }",
    b".class A { .property int32^~^{ } }",
    b".class A { .method virtual void M() {^~^{ ~ } } }",
];

/// A name of so many bytes.
fn name_of(alloc: Global, length: u32) -> Result<Vec<u8>, Fail> {
    let mut name = Vec::new(alloc);
    if length == 0 {
        name.extend_from_slice(b"''")?;
    }
    for _byte in 0..length {
        name.push(b'a')?;
    }
    Ok(name)
}

/// A text with what a row stands for, where a name has so many bytes.
fn write(alloc: Global, text: &mut Vec<u8>, row: &[u8], length: u32) -> Result<(), Fail> {
    for byte in row {
        match *byte {
            b'^' => text.push(b'\n')?,
            b'~' => text.extend_from_slice(name_of(alloc, length)?.as_slice())?,
            b'$' => text.extend_from_slice(name_of(alloc, 255)?.as_slice())?,
            other => text.push(other)?,
        }
    }
    Ok(())
}

fn decls_of(alloc: Global, text: &[u8]) -> Result<Result<Decls, DeclError>, Fail> {
    let tokens = lex(alloc, text)?;
    Ok(read_decls(alloc, text, tokens.as_slice()))
}

/// What is answered to these declarations, which begin in the second line.
fn of_declarations(alloc: Global, parts: [&[u8]; 3], length: u32) -> Result<Answer, Fail> {
    let mut text = Vec::new(alloc);
    text.extend_from_slice(b"vsd 1\n")?;
    for part in parts {
        write(alloc, &mut text, part, length)?;
    }
    text.extend_from_slice(b"\n%%\n")?;
    Ok(match decls_of(alloc, text.as_slice())? {
        Ok(_) => Answer::Read,
        Err(error) => answer_of(error),
    })
}

fn answer_of(error: DeclError) -> Answer {
    match error {
        DeclError::Unexpected { line } => Answer::Refused { number: 10, line },
        DeclError::Unsupported {
            line,
            what: Form::ForeignType,
        } => Answer::Refused { number: 11, line },
        DeclError::TooMany {
            line,
            what: Counted::NameBytes,
        } => Answer::Refused { number: 12, line },
        _ => Answer::Other,
    }
}

/// An empty name is none, and a long one has too many bytes.
#[test]
fn names_have_from_1_to_255_bytes(rt: HostRuntime) -> Result<(), Fail> {
    let answers = [
        (0, declared(10)),
        (1, Answer::Read),
        (255, Answer::Read),
        (256, declared(12)),
    ];
    for (length, answer) in answers {
        for row in IN_ITEMS {
            assert_eq!(rt;
                of_declarations(rt.alloc(), [b"", row, b""], length)?,
                answer
            );
        }
        for row in IN_MEMBERS {
            let parts: [&[u8]; 3] = [b".class A<T> {", row, b"}"];
            assert_eq!(rt; of_declarations(rt.alloc(), parts, length)?, answer);
        }
    }
    Ok(())
}

/// After a scope an empty name is none, and any other is that of a foreign type, which comes before its length.
#[test]
fn names_after_scopes_have_a_byte(rt: HostRuntime) -> Result<(), Fail> {
    let answers = [
        (0, declared(10)),
        (1, declared(11)),
        (255, declared(11)),
        (256, declared(11)),
    ];
    for (length, answer) in answers {
        for row in AFTER_SCOPES {
            assert_eq!(rt;
                of_declarations(rt.alloc(), [b"", row, b""], length)?,
                answer
            );
        }
    }
    Ok(())
}

#[test]
fn other_names_are_unexpected_or_not_read(rt: HostRuntime) -> Result<(), Fail> {
    for length in [0u32, 1, 255, 256] {
        for row in NO_PARAMETERS {
            assert_eq!(rt;
                of_declarations(rt.alloc(), [b"", row, b""], length)?,
                declared(10)
            );
        }
        for row in PASSED_OVER {
            assert_eq!(rt;
                of_declarations(rt.alloc(), [b"", row, b""], length)?,
                Answer::Read
            );
        }
    }
    Ok(())
}

// ---- scripts

/// An interface, a class, a generic class, and an interface and its method whose names have 255 bytes; lines 1 to 3.
static DECLARED: &[u8] =
    b"vsd 1^.class interface abstract I { .method newslot abstract virtual void M() { } } .class C implements I { .method newslot virtual void M() { } } .class G<T> { } .class interface abstract $ { .method newslot abstract virtual void M() { } .method newslot abstract virtual void $() { } }^%%^";

/// Places of a name that is given, or that the text has.
static KNOWN: [&[u8]; 18] = [
    b"site^~^= I::M;",
    b"site s =^~^::M;",
    b"site s = class^~^::M;",
    b"site s = $::^~^;",
    b"site s = $::^~^#1;",
    b"host^~^= C;",
    b"host a =^~^;",
    b"host a = G<^~^>;",
    b"host a = [^~^]System.Object;",
    b"host a = G<class [^~^]System.Object>;",
    b"lane { load^~^= C; }",
    b"lane { load x =^~^; }",
    b"lane { load x = valuetype [^~^]System.Object; }",
    b"lane { load $ = C; unload^~^; }",
    b"host c = C; site $ = I::M; lane { call^~^c; }",
    b"host $ = C; site s = I::M; lane { call s^~^; }",
    b"lane { load $ = C; cast^~^$; }",
    b"host $ = C; lane { cast $^~^; }",
];

/// Places of a name that nothing has.
static UNKNOWN: [&[u8]; 14] = [
    b"site s = [x]^~^::M;",
    b"site s = G<[x]^~^>::M;",
    b"host a = [x]^~^;",
    b"host a = class [x]^~^;",
    b"host a = G<valuetype [x]^~^>;",
    b"lane { load x = [x]^~^; }",
    b"host $ = C; lane { unload^~^; }",
    b"lane { unload^~^; }",
    b"lane { load $ = C; unload $; unload^~^; }",
    b"host c = C; lane { call^~^c; }",
    b"site s = I::M; lane { call s^~^; }",
    b"lane { cast^~^x; }",
    b"host c = C; lane { cast c^~^; }",
    b"lane { load $ = C; } lane { cast^~^~; }",
];

/// Places of a name that is there already.
static TAKEN: [&[u8]; 4] = [
    b"site $ = I::M; site^~^= I::M;",
    b"host $ = C; host^~^= C;",
    b"host $ = C; lane { load^~^= C; }",
    b"lane { load $ = C; load^~^= C; }",
];

/// What is answered to this script, which begins in the fourth line.
fn of_script(alloc: Global, script: &[u8], length: u32) -> Result<Answer, Fail> {
    let mut text = Vec::new(alloc);
    write(alloc, &mut text, DECLARED, 255)?;
    write(alloc, &mut text, script, length)?;
    let tokens = lex(alloc, text.as_slice())?;
    let decls = read_decls(alloc, text.as_slice(), tokens.as_slice())?;
    Ok(
        match read_script(alloc, text.as_slice(), tokens.as_slice(), &decls) {
            Ok(_) => Answer::Read,
            Err(ScriptError::Unexpected { line }) => Answer::Refused { number: 20, line },
            Err(ScriptError::UnknownName { line }) => Answer::Refused { number: 21, line },
            Err(ScriptError::Twice { line }) => Answer::Refused { number: 22, line },
            Err(ScriptError::UnknownMethod { line }) => Answer::Refused { number: 27, line },
            Err(_) => Answer::Other,
        },
    )
}

/// In a script an empty name and a long one are unexpected, whatever else would be said of the name.
#[test]
fn names_of_scripts_have_from_1_to_255_bytes(rt: HostRuntime) -> Result<(), Fail> {
    for row in KNOWN {
        assert_eq!(rt; of_script(rt.alloc(), row, 255)?, Answer::Read);
        assert_eq!(rt; of_script(rt.alloc(), row, 0)?, scripted(20));
        assert_eq!(rt; of_script(rt.alloc(), row, 256)?, scripted(20));
    }
    for row in UNKNOWN {
        assert_eq!(rt; of_script(rt.alloc(), row, 255)?, scripted(21));
        assert_eq!(rt; of_script(rt.alloc(), row, 0)?, scripted(20));
        assert_eq!(rt; of_script(rt.alloc(), row, 256)?, scripted(20));
    }
    for row in TAKEN {
        assert_eq!(rt; of_script(rt.alloc(), row, 255)?, scripted(22));
        assert_eq!(rt; of_script(rt.alloc(), row, 0)?, scripted(20));
        assert_eq!(rt; of_script(rt.alloc(), row, 256)?, scripted(20));
    }
    let method = b"site s = I::^~^;".as_slice();
    assert_eq!(rt; of_script(rt.alloc(), method, 255)?, scripted(27));
    assert_eq!(rt; of_script(rt.alloc(), method, 0)?, scripted(20));
    assert_eq!(rt; of_script(rt.alloc(), method, 256)?, scripted(20));
    Ok(())
}

// ---- what follows a target's name

/// A `<` goes on with no target in a class, with no long form, and with no `with` part.
#[test]
fn no_arguments_after_the_name_of_a_target(rt: HostRuntime) -> Result<(), Fail> {
    let rows: [&[u8]; 4] = [
        b".override I::N^<int32> with void A::M()",
        b".override method void I::N^<int32>() with void A::M()",
        b".override I::N with void A::M^<int32>()",
        b".method virtual void M() { .override method void I::N^<int32>() }",
    ];
    for row in rows {
        let parts: [&[u8]; 3] = [b".class A {", row, b"}"];
        assert_eq!(rt; of_declarations(rt.alloc(), parts, 1)?, declared(10));
    }
    Ok(())
}

/// In a body a short form ends with its name; what follows is passed over, up to the next.
#[test]
fn a_body_goes_on_after_a_short_form(rt: HostRuntime) -> Result<(), Fail> {
    let text =
        b"vsd 1 .class A { .method virtual void M() { .override I::N<int32> { < } .override I::K ; } } %%";
    match decls_of(rt.alloc(), text.as_slice())? {
        Ok(decls) => match decls.list.as_slice() {
            [decl] => assert_eq!(rt; decl.overrides.len(), 2),
            _ => assert!(rt; false),
        },
        Err(_) => assert!(rt; false),
    }
    Ok(())
}
