//! Which declarations are refused, and why first.
use std::alloc::Global;
use std::test::Fail;
use vsd_check::{CheckError, check};
use vsd_decls::read_decls;
use vsd_text::lex;

/// Why the declarations of a text are refused, if they are. The first part follows `vsd 1` in line 1 and ends in a line
/// feed; the second part follows it.
fn refusal(alloc: Global, first: &[u8], second: &[u8]) -> Result<Option<CheckError>, Fail> {
    let mut text = Vec::new(alloc);
    text.extend_from_slice(b"vsd 1 ")?;
    text.extend_from_slice(first)?;
    text.extend_from_slice(second)?;
    text.extend_from_slice(b"\n%%\n")?;
    let tokens = lex(alloc, text.as_slice())?;
    let decls = read_decls(alloc, text.as_slice(), tokens.as_slice())?;
    match check(alloc, decls) {
        Ok(_) => Ok(None),
        Err(error) => Ok(Some(error)),
    }
}

/// Two interfaces, two generic ones, and a class, in line 2.
const INTERFACES: &[u8] =
    b"\n.class interface abstract I { .method newslot abstract virtual void M() { } } .class interface abstract J implements I { } .class interface abstract G<T> { .method newslot abstract virtual void M(!T) { } } .class interface abstract D<T, U> { .method newslot abstract virtual void M(!T) { } .method newslot abstract virtual void M(!U) { } } .class B implements I { .method virtual void N() { } }\n";

/// Each refusal alone, from line 2 on.
#[test]
fn each_refusal_stands_at_its_line(rt: HostRuntime) -> Result<(), Fail> {
    let cases: [(&[u8], Option<CheckError>); 30] = [
        (b"", None),
        (
            b".class A { }\n.class B extends A implements I { }\n.class interface abstract I { }",
            None,
        ),
        (
            b".class A { }\n.class A { }",
            Some(CheckError::Twice { line: 3 }),
        ),
        (
            b"\n.class 'System.Object' { }",
            Some(CheckError::Twice { line: 3 }),
        ),
        (b".class A<T, T> { }", Some(CheckError::Twice { line: 2 })),
        (
            b".class A {\n.method virtual void M() { }\n.method virtual int32 M() { }\n.method virtual void M() { } }",
            Some(CheckError::Twice { line: 5 }),
        ),
        (
            b".class A extends\nclass X { }",
            Some(CheckError::UnknownType { line: 3 }),
        ),
        (
            b".class A implements object,\nX { }",
            Some(CheckError::UnknownType { line: 3 }),
        ),
        (
            b".class A {\n.method virtual void\nM(class X) { } }",
            Some(CheckError::UnknownType { line: 3 }),
        ),
        (
            b".class A {\n.override X::M with void\nA::N() }",
            Some(CheckError::UnknownType { line: 3 }),
        ),
        (
            b".class G<T> { }\n.class A extends G { }",
            Some(CheckError::Arity { line: 3 }),
        ),
        (
            b".class G<T> { }\n.class A {\n.method virtual class G<int32, int32> M() { } }",
            Some(CheckError::Arity { line: 4 }),
        ),
        (
            b".class G<T> { }\n.class A {\n.method virtual void N() {\n.override G::M } }",
            Some(CheckError::Arity { line: 5 }),
        ),
        (
            b"\n.class A extends B { }\n.class B extends A { }",
            Some(CheckError::Cycle { line: 3 }),
        ),
        (
            b".class interface abstract I implements J { }\n.class interface abstract J implements I { }",
            Some(CheckError::Cycle { line: 2 }),
        ),
        (
            b".class A { }\n.class interface abstract I\nextends A { }",
            Some(CheckError::BadBase { line: 3 }),
        ),
        (
            b".class sealed A { }\n.class B\nextends A { }",
            Some(CheckError::BadBase { line: 3 }),
        ),
        (
            b".class A extends System.ValueType { }\n.class B extends A { }",
            Some(CheckError::BadBase { line: 3 }),
        ),
        (
            b".class A extends string { }",
            Some(CheckError::BadBase { line: 2 }),
        ),
        (
            b".class A { }\n.class B implements\nA { }",
            Some(CheckError::BadInterface { line: 4 }),
        ),
        (
            b".class interface public abstract V`1<+ T> { .method public newslot abstract virtual instance void Put(!T) cil managed { } }",
            Some(CheckError::VarianceMisplaced { line: 2 }),
        ),
        (
            b".class interface abstract V<+ T> { }\n.class interface abstract W<- T> implements\nclass V<!T> { }",
            Some(CheckError::VarianceMisplaced { line: 4 }),
        ),
        (
            b".class A<\n+ T> { }",
            Some(CheckError::VariantClass { line: 2 }),
        ),
        (
            b".class public A { .method public newslot virtual final instance void M() cil managed { } }\n.class public D extends A { .method public virtual instance void M() cil managed { } }",
            Some(CheckError::OverridesFinal { line: 3 }),
        ),
        (
            b".class public A { .method public newslot virtual final instance void M() cil managed { } }\n.class B extends A { }\n.class D extends B {\n.method virtual void M() { } }",
            Some(CheckError::OverridesFinal { line: 5 }),
        ),
        (
            b".class public A { .method public newslot virtual final instance void M() cil managed { } }\n.class D extends A { .method newslot virtual void M() { } }",
            None,
        ),
        (
            b".class A {\n.method abstract virtual void M() { } }",
            Some(CheckError::AbstractInConcrete { line: 2 }),
        ),
        (
            b".class abstract A { .method abstract virtual void M() { } }\n.class B extends A { }",
            Some(CheckError::AbstractInConcrete { line: 3 }),
        ),
        (
            b".class abstract A { .method abstract virtual void M() { } }\n.class B extends A { .method virtual void M() { } }",
            None,
        ),
        (
            b".class A {\n.method virtual void N() {\n.override object::M } }",
            Some(CheckError::OverrideUnknown { line: 4 }),
        ),
    ];
    for (text, expected) in cases {
        assert_eq!(rt; refusal(rt.alloc(), b"\n", text)?, expected);
    }
    Ok(())
}

/// A class and an interface that lead to each other are no cycle: the first line counts at which a base is an interface, or
/// what is named as an interface is a class. A cycle beside them is one.
#[test]
fn a_cycle_is_of_one_kind(rt: HostRuntime) -> Result<(), Fail> {
    let cases: [(&[u8], Option<CheckError>); 9] = [
        (
            b".class interface abstract I implements C { }\n.class C extends I { }",
            Some(CheckError::BadInterface { line: 2 }),
        ),
        (
            b".class interface abstract I\nimplements C { }\n.class C extends I { }",
            Some(CheckError::BadInterface { line: 3 }),
        ),
        (
            b".class C extends I { }\n.class interface abstract I implements C { }",
            Some(CheckError::BadBase { line: 2 }),
        ),
        (
            b".class interface abstract I implements C { } .class C extends I { }",
            Some(CheckError::BadBase { line: 2 }),
        ),
        (
            b".class interface abstract I implements J { }\n.class interface abstract J implements C { }\n.class C extends I { }",
            Some(CheckError::BadInterface { line: 3 }),
        ),
        (
            b".class interface abstract I implements\nC { }\n.class C implements I { }",
            Some(CheckError::BadInterface { line: 3 }),
        ),
        (
            b".class C extends I { }\n.class interface abstract I extends C { }",
            Some(CheckError::BadBase { line: 2 }),
        ),
        (
            b".class interface abstract I implements C, J { }\n.class interface abstract J implements I { }\n.class C extends I { }",
            Some(CheckError::Cycle { line: 2 }),
        ),
        (
            b".class C extends I { }\n.class interface abstract I implements C, I { }",
            Some(CheckError::BadBase { line: 2 }),
        ),
    ];
    for (text, expected) in cases {
        assert_eq!(rt; refusal(rt.alloc(), b"\n", text)?, expected);
    }
    Ok(())
}

/// Two refusals at one line in each order; an earlier line before a lower number; an earlier pass before an earlier line.
#[test]
fn the_first_refusal_counts(rt: HostRuntime) -> Result<(), Fail> {
    let cases: [(&[u8], Option<CheckError>); 23] = [
        (
            b".class A extends X { } .class A { }",
            Some(CheckError::Twice { line: 2 }),
        ),
        (
            b".class A { } .class A extends X { }",
            Some(CheckError::Twice { line: 2 }),
        ),
        (
            b".class G<T> { } .class A extends G { } .class B extends X { }",
            Some(CheckError::UnknownType { line: 2 }),
        ),
        (
            b".class G<T> { } .class B extends X { } .class A extends G { }",
            Some(CheckError::UnknownType { line: 2 }),
        ),
        (
            b".class G<+ T> { } .class A extends G { }",
            Some(CheckError::Arity { line: 2 }),
        ),
        (
            b".class A extends G { } .class G<+ T> { }",
            Some(CheckError::Arity { line: 2 }),
        ),
        (
            b".class A extends A { } .class B extends string { }",
            Some(CheckError::Cycle { line: 2 }),
        ),
        (
            b".class B extends string { } .class A extends A { }",
            Some(CheckError::Cycle { line: 2 }),
        ),
        (
            b".class A { } .class B extends string { } .class C implements A { }",
            Some(CheckError::BadBase { line: 2 }),
        ),
        (
            b".class A { } .class C implements A { } .class B extends string { }",
            Some(CheckError::BadBase { line: 2 }),
        ),
        (
            b".class interface public abstract V`1<+ T> { .method public newslot abstract virtual instance void Put(!T) cil managed { } } .class public A { .method public newslot virtual final instance void M() cil managed { } } .class public D extends A { .method public virtual instance void M() cil managed { } }",
            Some(CheckError::VarianceMisplaced { line: 2 }),
        ),
        (
            b".class public A { .method public newslot virtual final instance void M() cil managed { } } .class public D extends A { .method public virtual instance void M() cil managed { } } .class interface public abstract V`1<+ T> { .method public newslot abstract virtual instance void Put(!T) cil managed { } }",
            Some(CheckError::VarianceMisplaced { line: 2 }),
        ),
        (
            b".class public A { .method public newslot virtual final instance void M() cil managed { } } .class public D extends A { .method public virtual instance void M() cil managed { } } .class B { .method abstract virtual void M() { } }",
            Some(CheckError::OverridesFinal { line: 2 }),
        ),
        (
            b".class B { .method abstract virtual void M() { } } .class public A { .method public newslot virtual final instance void M() cil managed { } } .class public D extends A { .method public virtual instance void M() cil managed { } }",
            Some(CheckError::OverridesFinal { line: 2 }),
        ),
        (
            b".class A { .method abstract virtual void M() { .override object::M } }",
            Some(CheckError::AbstractInConcrete { line: 2 }),
        ),
        (
            b".class B { .method virtual void M() { .override object::M } } .class A { .method abstract virtual void M() { } }",
            Some(CheckError::AbstractInConcrete { line: 2 }),
        ),
        (
            b".class interface abstract I { .method newslot abstract virtual void M() { } } .class A implements I { .method virtual void N() { .override I::M .override I::M .override I::X } }",
            Some(CheckError::OverrideUnknown { line: 2 }),
        ),
        (
            b".class interface abstract I { .method newslot abstract virtual void M() { } } .class A implements I { .method virtual void N() { .override I::X .override I::M .override I::M } }",
            Some(CheckError::OverrideUnknown { line: 2 }),
        ),
        (
            b".class A<+ T> { }\n.class B { }\n.class B { }",
            Some(CheckError::VariantClass { line: 2 }),
        ),
        (
            b".class interface abstract I { .method newslot abstract virtual void M() { } }\n.class A implements I { .method virtual void N() { .override I::M .override I::M } }\n.class interface public abstract V`1<+ T> { .method public newslot abstract virtual instance void Put(!T) cil managed { } }",
            Some(CheckError::OverrideTwice { line: 3 }),
        ),
        (
            b".class A extends A { }\n.class B { }\n.class B { }",
            Some(CheckError::Twice { line: 4 }),
        ),
        (
            b".class public A { .method public newslot virtual final instance void M() cil managed { } }\n.class public D extends A { .method public virtual instance void M() cil managed { } }\n.class B extends string { }",
            Some(CheckError::BadBase { line: 4 }),
        ),
        (
            b".class A { .method virtual void N() { .override object::M } }\n.class B<+ T> { }",
            Some(CheckError::VariantClass { line: 3 }),
        ),
    ];
    for (text, expected) in cases {
        assert_eq!(rt; refusal(rt.alloc(), b"\n", text)?, expected);
    }
    Ok(())
}

/// Overrides, from line 3 on: what they may say, and what leaves them without anything to implement.
#[test]
fn overrides_implement_something_once(rt: HostRuntime) -> Result<(), Fail> {
    let cases: [(&[u8], Option<CheckError>); 27] = [
        (
            b".class A implements I { .method virtual void N() { .override I::M } }",
            None,
        ),
        (
            b".class A implements J { .method virtual void N() { .override I::M } }",
            None,
        ),
        (
            b".class A extends B { .method virtual void N() { .override I::M } }",
            None,
        ),
        (
            b".class A<T> implements class G<!T> { .method virtual void N(!T) { .override class G<!T>::M } }",
            None,
        ),
        (
            b".class C<T> implements class G<!T> { } .class A extends class C<int32> { .method virtual void N(int32) { .override class G<int32>::M } }",
            None,
        ),
        (
            b".class A implements class G<int32> { .method virtual void N(int32) { } .override method void class G<int32>::M(!0) with void A::N(int32) }",
            None,
        ),
        (
            b".class A<T> implements I { .method virtual void N() { } .override I::M with void class A<int32>::N() }",
            None,
        ),
        (
            b".class A implements class G<int32>, class G<string> { .method virtual void N(int32) { .override class G<int32>::M } .method virtual void N(string) { .override class G<string>::M } }",
            None,
        ),
        (
            b".class A implements class D<int32, int32> { .method virtual void N(int32) { } .override method void class D<int32, int32>::M(!0) with void A::N(int32) .override method void class D<int32, int32>::M(!1) with void A::N(int32) }",
            None,
        ),
        (
            b".class A extends B {\n.method virtual void X() {\n.override B::N } }",
            Some(CheckError::OverrideUnknown { line: 5 }),
        ),
        (
            b".class A { .method virtual void N() { .override I::M } }",
            Some(CheckError::OverrideUnknown { line: 3 }),
        ),
        (
            b".class A implements class G<string> { .method virtual void N(int32) { .override class G<int32>::M } }",
            Some(CheckError::OverrideUnknown { line: 3 }),
        ),
        (
            b".class A<T> implements class G<!T> { .method virtual void N(int32) { .override class G<int32>::M } }",
            Some(CheckError::OverrideUnknown { line: 3 }),
        ),
        (
            b".class C<T> implements class G<!T> { } .class A extends class C<int32> { .method virtual void N(string) { .override class G<string>::M } }",
            Some(CheckError::OverrideUnknown { line: 3 }),
        ),
        (
            b".class A implements I { .method virtual void N() { } .override method void I::X() with void A::N() }",
            Some(CheckError::OverrideUnknown { line: 3 }),
        ),
        (
            b".class A implements I { .method virtual void N() { } .override method int32 I::M() with void A::N() }",
            Some(CheckError::OverrideUnknown { line: 3 }),
        ),
        (
            b".class A implements I { .method virtual void N() { .override I::X } }",
            Some(CheckError::OverrideUnknown { line: 3 }),
        ),
        (
            b".class A implements class G<int32> { .method virtual void N(string) { .override class G<int32>::M } }",
            Some(CheckError::OverrideUnknown { line: 3 }),
        ),
        (
            b".class A implements I { .override I::M with void A::N() }",
            Some(CheckError::OverrideUnknown { line: 3 }),
        ),
        (
            b".class A implements I { .method void N() { } .override I::M with void A::N() }",
            Some(CheckError::OverrideUnknown { line: 3 }),
        ),
        (
            b".class A extends B { .override I::M with void A::N() }",
            Some(CheckError::OverrideUnknown { line: 3 }),
        ),
        (
            b".class A extends B { .method virtual void N() { } .override I::M with void B::N() }",
            Some(CheckError::OverrideUnknown { line: 3 }),
        ),
        (
            b".class A implements class G<int32> { .method virtual void N(string) { } .override method void class G<int32>::M(!0) with void A::N(string) }",
            Some(CheckError::OverrideUnknown { line: 3 }),
        ),
        (
            b".class interface abstract K implements I { .method newslot abstract virtual void N() { } .override I::M with void K::N() }",
            Some(CheckError::OverrideUnknown { line: 3 }),
        ),
        (
            b".class A implements I { .method virtual void N() { .override I::M }\n.method virtual void O() {\n.override I::M } }",
            Some(CheckError::OverrideTwice { line: 5 }),
        ),
        (
            b".class A implements class G<int32> { .method virtual void N(int32) { .override class G<int32>::M }\n.override method void class G<int32>::M(!0) with void A::N(int32) }",
            Some(CheckError::OverrideTwice { line: 4 }),
        ),
        (
            b".class A implements class D<int32, int32> { .method virtual void N(int32) { .override class D<int32, int32>::M }\n.method virtual void O(int32) { .override class D<int32, int32>::M } }",
            Some(CheckError::OverrideTwice { line: 4 }),
        ),
    ];
    for (text, expected) in cases {
        assert_eq!(rt; refusal(rt.alloc(), INTERFACES, text)?, expected);
    }
    Ok(())
}
