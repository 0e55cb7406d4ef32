//! Each refusal, with each of its texts once.
use super::rows::first_failing;
use std::test::Fail;

/// Rows as those of texts.
static REFUSED: &[u8] = b"1|refused 2 1 bad byte^|vsd 1^\x01
2|refused 1 2 open comment^|vsd 1 /* 
3|refused 3 3 open quote^|^^'a
10|refused 2 10 unexpected^|vsd 1^.class A extends int32 { }^%%^
11 nested|refused 2 11 nested^|vsd 1^.class A extends B/C { }^%%^
11 type forwarding|refused 2 11 type forwarding^|vsd 1^.class extern A { }^%%^
11 namespace|refused 2 11 namespace^|vsd 1^.namespace N { }^%%^
11 enum|refused 2 11 enum^|vsd 1^.class A extends System.Enum { }^%%^
11 delegate|refused 2 11 delegate^|vsd 1^.class A extends System.Delegate { }^%%^
11 foreign type|refused 2 11 foreign type^|vsd 1^.class A extends [x]B { }^%%^
11 constraint|refused 2 11 constraint^|vsd 1^.class A<class T> { }^%%^
11 generic method|refused 2 11 generic method^|vsd 1^.class A { .method virtual void M<T>() { } }^%%^
11 array|refused 2 11 array^|vsd 1^.class A { .method virtual int32[] M() { } }^%%^
11 pointer|refused 2 11 pointer^|vsd 1^.class A { .method virtual int32* M() { } }^%%^
11 native int|refused 2 11 native int^|vsd 1^.class A { .method virtual native int M() { } }^%%^
11 typedref|refused 2 11 typedref^|vsd 1^.class A { .method virtual typedref M() { } }^%%^
11 modifier|refused 2 11 modifier^|vsd 1^.class A { .method virtual int32 modopt(A) M() { } }^%%^
11 marshal|refused 2 11 marshal^|vsd 1^.class A { .method virtual int32 marshal(bool) M() { } }^%%^
11 vararg|refused 2 11 vararg^|vsd 1^.class A { .method virtual void M(...) { } }^%%^
11 static interface method|refused 2 11 static interface method^|vsd 1^.class interface I { .method static void M() { } }^%%^
11 default interface method|refused 2 11 default interface method^|vsd 1^.class interface I { .method virtual void M() { } }^%%^
12 types|refused 1026 12 too many types^|vsd 1^~1025~.class interface I& { }^~%%^
12 names|refused 1025 12 too many names^|vsd 1^~1023~.class A& extends B& { }^~.class X extends Y implements Z { }^%%^
12 parameters|refused 2 12 too many parameters^|vsd 1^.class A<~8~T&, ~T8> { }^%%^
12 interfaces|refused 2 12 too many interfaces^|vsd 1^.class A implements ~64~I, ~I { }^%%^
12 methods|refused 2 12 too many methods^|vsd 1^.class A { ~257~.method virtual void M&() { } ~}^%%^
12 overrides|refused 2 12 too many overrides^|vsd 1^.class A { .method virtual void M() { ~257~.override I::M ~} }^%%^
12 arguments|refused 2 12 too many arguments^|vsd 1^.class A { .method virtual void M(~16~int32, ~int32) { } }^%%^
12 name bytes|refused 2 12 too many name bytes^|vsd 1^.class ~256~a~ { }^%%^
13|refused 2 13 too deep^|vsd 1^.class A extends ~16~B<~
20|refused 3 20 unexpected^|vsd 1^%%^cast
21|refused 3 21 unknown name^|vsd 1^%%^host a = A;
22|refused 3 22 twice^|vsd 1^%%^lane { load x = object; load x = object; }
23|refused 3 23 too many live^|vsd 1^%%^lane { ~33~load x& = object; ~}
24|refused 3 24 too many operations^|vsd 1^%%^lane { load x = object; repeat 200000 { cast x x; } }
25 sites|refused 4 25 too many sites^|vsd 1^@^%%^~257~site s& = I::M; ~
25 hosts|refused 3 25 too many hosts^|vsd 1^%%^~257~host h& = object; ~
25 lanes|refused 3 25 too many lanes^|vsd 1^%%^~65~lane { } ~
26|refused 4 26 not concrete^|vsd 1^@^%%^site s = I::M; host a = object; lane { call s a; }
27|refused 4 27 unknown method^|vsd 1^@^%%^site s = I::M#2;
28|refused 4 28 arity^|vsd 1^.class interface G<T> { }^%%^host a = G;
29|refused 4 29 too deep^|vsd 1^.class interface G<T> { }^%%^host a = ~16~G<~
30|refused 3 30 twice^|vsd 1^.class A { }^.class A { }^%%^
31|refused 3 31 unknown type^|vsd 1^.class A extends^class X { }^%%^
32|refused 3 32 arity^|vsd 1^.class G<T> { }^.class A extends G { }^%%^
33|refused 2 33 cycle^|vsd 1^.class A extends A { }^%%^
34|refused 3 34 bad base^|vsd 1^.class sealed A { }^.class B extends A { }^%%^
35|refused 4 35 bad interface^|vsd 1^.class A { }^.class B implements^A { }^%%^
36|refused 3 36 variance misplaced^|vsd 1^.class interface V<+ T> {^.method newslot abstract virtual void Put(!T) { } }^%%^
37|refused 2 37 variant class^|vsd 1^.class A<+ T> { }^%%^
38|refused 4 38 overrides final^|vsd 1^.class A { .method newslot virtual final void M() { } }^.class D extends A {^.method virtual void M() { } }^%%^
39|refused 3 39 abstract in concrete^|vsd 1^.class abstract A { .method abstract virtual void M() { } }^.class B extends A { }^%%^
40|refused 3 40 override unknown^|vsd 1^.class A { .method virtual void N() {^.override object::M } }^%%^
41|refused 4 41 override twice^|vsd 1^@^.class A implements I { .method virtual void N() { .override I::M^.override I::M } }^%%^
50|refused 0 50 too many types^|vsd 1^.class interface B<X> { }^.class A<T> implements class B<class A<class B<!T>>>, class B<class A<class A<!T>>> { }^%%^host x = class A<object>;
51|refused 0 51 too deep^|vsd 1^.class B<X> { }^.class C<T> extends class B<class C<class C<!T>>> { }^%%^host x = class C<object>;
60|refused 3 60 missing A I::M^|vsd 1^@^.class A implements I { }^%%^
61|refused 262 61 too many slots^|vsd 1^.class interface abstract J0 { ~256~.method newslot abstract virtual void M&() { } ~}^.class interface abstract J1 { ~256~.method newslot abstract virtual void M&() { } ~}^.class interface abstract J2 { ~256~.method newslot abstract virtual void M&() { } ~}^.class interface abstract J3 { ~256~.method newslot abstract virtual void M&() { } ~}^~257~.class abstract C& implements J0, J1, J2, J3 { }^~%%^
";

#[test]
fn refuses_each_for_its_reason(rt: HostRuntime) -> Result<(), Fail> {
    let failing = first_failing(rt.alloc(), REFUSED)?;
    assert_eq!(rt; failing.as_str(), "");
    Ok(())
}
