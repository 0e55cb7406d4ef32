//! Texts with what is printed for them.
use super::trials::Trial;
use std::alloc::Global;
use std::test::Fail;

/// Rows of a name, what is printed, and the text. `^` stands for a line feed, `~N~piece~` for N times the piece, in which
/// `&` is the number of the round, from 0; and the bytes of [`fragment`] for a declaration or a part of one.
static ROWS: &[u8] = b"empty||vsd 1^%%^
plain|0 s A::M^|vsd 1^@^.class public A$^%%^site s = I::M; host a = A; lane { call s a; }
another interface|0 t missing J::N^|vsd 1^@^.class interface public abstract J { .method public newslot abstract virtual instance void N() cil managed { } }^.class public A$^%%^site s = I::M; site t = J::N; host a = A; lane { call t a; }
past the miss limit|~200~0 s A::M^0 s B::M^0 s D::M^~|vsd 1^@^.class public A$^.class public B$^.class public D$^%%^site s = I::M; host a = A; host b = B; host d = D; lane { repeat 200 { call s a; call s b; call s d; } }
covariant match|0 s S::Get^0 s Box`1<string>::Get^|vsd 1^_^.class public S extends [mscorlib]System.Object implements class IOut`1<string> { .method public newslot virtual instance string Get() cil managed { } }^.class public Box`1<T> extends [mscorlib]System.Object implements class IOut`1<!T> { .method public newslot virtual instance !T Get() cil managed { } }^%%^site s = class IOut`1<object>::Get; host x = S; host b = class Box`1<string>; lane { call s x; call s b; }
contravariant match|0 s P::Put^0 t missing IIn`1<object>::Put^|vsd 1^.class interface public abstract IIn`1<- T> { .method public newslot abstract virtual instance void Put(!T) cil managed { } }^.class public P implements class IIn`1<object> { .method public newslot virtual instance void Put(object) cil managed { } }^.class public Q implements class IIn`1<string> { .method public newslot virtual instance void Put(string) cil managed { } }^%%^site s = class IIn`1<string>::Put; site t = class IIn`1<object>::Put; host p = P; host q = Q; lane { call s p; call t q; }
value arguments|0 x as y no^0 z as y yes^0 x as x yes^|vsd 1^_^%%^host x = class IOut`1<int32>; host y = class IOut`1<object>; host z = class IOut`1<string>; lane { cast x y; cast z y; cast x x; }
two matches|0 s T::Get^0 s T::Get#2^|vsd 1^_^.class public C { }^.class public T implements class IOut`1<string>, class IOut`1<class C> { .method public newslot virtual instance string Get() cil managed { } .method public newslot virtual instance class C Get() cil managed { } }^.class public U extends T implements class IOut`1<class C> { }^%%^site s = class IOut`1<object>::Get; host t = T; host u = U; lane { call s t; call s u; }
leads back to itself|0 c as n no^|vsd 1^.class interface public abstract N`1<- Z> { }^.class public C implements class N`1<class N`1<class C>> { }^%%^host c = C; host n = class N`1<class C>; lane { cast c n; }
override before name|0 s E::X^|vsd 1^@^.class public E implements I { ? .method private newslot virtual final instance void X() cil managed { .override I::M } }^%%^site s = I::M; host a = E; lane { call s a; }
named again|0 s D::M^0 s A::M^|vsd 1^@^.class public A$^.class public D extends A implements I { ? }^.class public F extends A { ? }^%%^site s = I::M; host d = D; host f = F; lane { call s d; call s f; }
a base that knows nothing|0 s B::M^|vsd 1^@^.class public B { ? }^.class public G extends B implements I { }^%%^site s = I::M; host a = G; lane { call s a; }
a new slot between|0 s A::M^|vsd 1^@^.class public A$^.class public K extends A { ? }^.class public L extends K { .method public virtual instance void M() cil managed { } }^%%^site s = I::M; host a = L; lane { call s a; }
empty slot|refused 3 60 missing H I::M^|vsd 1^@^.class public H implements I { }^%%^
no interface|0 s missing I::M^|vsd 1^@^.class public Z { }^%%^site s = I::M; host a = Z; lane { call s a; }
33 live variables|refused 3 23 too many live^|vsd 1^%%^lane { ~33~load x& = object; ~}
32 live variables||vsd 1^%%^lane { ~32~load x& = object; ~}
cut after extends|refused 3 10 unexpected^|vsd 1^@^.class public A extends
cut after a site's interface|refused 5 20 unexpected^|vsd 1^@^.class public A$^%%^site s = I::
default interface method|refused 2 11 default interface method^|vsd 1^.class interface public abstract I { ? }^%%^
expansive sets|refused 0 50 too many types^|vsd 1^.class interface public abstract B`1<X> { }^.class public L`1<X> { }^.class public R`1<X> { }^.class public C`1<T> implements class B`1<class C`1<class L`1<!T>>>, class B`1<class C`1<class R`1<!T>>> { }^%%^host x = class C`1<object>;
expansive bases|refused 0 51 too deep^|vsd 1^.class public B`1<X> { }^.class public C`1<T> extends class B`1<class C`1<class C`1<!T>>> { }^%%^host x = class C`1<object>;
variance misplaced|refused 2 36 variance misplaced^|vsd 1^.class interface public abstract V`1<+ T> { .method public newslot abstract virtual instance void Put(!T) cil managed { } }^%%^
final|refused 3 38 overrides final^|vsd 1^.class public A { .method public newslot virtual final instance void M() cil managed { } }^.class public D extends A { .method public virtual instance void M() cil managed { } }^%%^
nine repeats|refused 3 29 too deep^|vsd 1^%%^lane { load x = object; ~9~repeat 1 { ~cast x x; ~9~} ~}
an unknown variable|refused 3 21 unknown name^|vsd 1^%%^lane { unload x; }
a host twice|refused 3 22 twice^|vsd 1^%%^host a = string; host a = object;
an interface called|refused 4 26 not concrete^|vsd 1^@^%%^site s = I::M; host i = I; lane { call s i; }
an unknown method|refused 4 27 unknown method^|vsd 1^@^%%^site s = I::N;
value types|0 s V::M^0 v as o yes^0 v as t yes^0 a as b no^|vsd 1^@^_^.class public sequential sealed V extends [mscorlib]System.ValueType implements I { ? }^%%^site s = I::M; host v = V; host o = object; host t = System.ValueType; host a = class IOut`1<valuetype V>; host b = class IOut`1<object>; lane { call s v; cast v o; cast v t; cast a b; }
no text|refused 1 10 unexpected^|
no tokens after vsd 1|refused 1 10 unexpected^|vsd 1
variant matches in base and derived|0 s T::Get^0 s U::Get^|vsd 1^_^.class public C { }^.class public T implements class IOut`1<string> { .method public newslot virtual instance string Get() cil managed { } }^.class public U extends T implements class IOut`1<class C> { .method public newslot virtual instance class C Get() cil managed { } }^%%^site s = class IOut`1<object>::Get; host t = T; host u = U; lane { call s t; call s u; }
an exact match far above|0 s T::Get^0 t U::Get^|vsd 1^_^.class public T implements class IOut`1<object> { .method public newslot virtual instance object Get() cil managed { } }^.class public U extends T implements class IOut`1<string> { .method public newslot virtual instance string Get() cil managed { } }^%%^site s = class IOut`1<object>::Get; site t = class IOut`1<string>::Get; host u = U; lane { call s u; call t u; }
two methods become one|0 s G`1<string>::Put#2^0 t G`1<int32>::Put^0 s D::Put^|vsd 1^.class interface abstract IPut`1<T> { .method newslot abstract virtual void Put(!T) { } }^.class G`1<T> implements class IPut`1<!T> { .method public newslot virtual void Put(int32) { } .method public newslot virtual void Put(!T) { } }^.class D extends class G`1<string> { .method public virtual void Put(string) { } }^%%^site s = class IPut`1<string>::Put; site t = class IPut`1<int32>::Put; host g = class G`1<string>; host h = class G`1<int32>; host d = D; lane { call s g; call t h; call s d; }
the first of two that become one|0 s A`1<int32>::M^0 s A`1<string>::M#2^0 s B::M^|vsd 1^.class interface abstract IM { .method newslot abstract virtual void M(int32) { } }^.class A`1<T> implements IM { .method public newslot virtual void M(!T) { } .method public newslot virtual void M(int32) { } }^.class B extends class A`1<int32> { .method public virtual void M(int32) { } }^%%^site s = IM::M; host a = class A`1<int32>; host c = class A`1<string>; host b = B; lane { call s a; call s c; call s b; }
a private method is no name|refused 3 60 missing A I::M^|vsd 1^@^.class public A implements I { .method private newslot virtual void M() { } }^%%^
a private method overrides|0 s D::M^|vsd 1^@^.class public A$^.class public D extends A { .method private virtual void M() { } }^%%^site s = I::M; host d = D; lane { call s d; }
a private method isn't overridden by name|0 s A::M^|vsd 1^@^.class public A implements I { .method private newslot virtual void M() { .override I::M } }^.class public D extends A { .method public virtual void M() { } }^%%^site s = I::M; host d = D; lane { call s d; }
an abstract body|0 s C::M^0 b as c no^|vsd 1^@^.class public abstract B implements I { .method public newslot abstract virtual void M() { } }^.class public C extends B { .method public virtual void M() { } }^%%^site s = I::M; host b = B; host c = C; lane { call s c; cast b c; }
nothing is asked of an abstract class||vsd 1^@^.class public abstract H implements I { }^%%^
named again by what is required|0 s D::M^0 s A::M^|vsd 1^@^.class interface abstract J implements I { }^.class public A$^.class public D extends A implements J { ? }^.class public F extends A implements J { }^%%^site s = I::M; host d = D; host f = F; lane { call s d; call s f; }
a name near by before an override above|0 s G::M^0 s E::X^|vsd 1^@^.class public E implements I { ? .method private newslot virtual void X() { .override I::M } }^.class public G extends E implements I { ? }^.class public F extends E { ? }^%%^site s = I::M; host g = G; host f = F; lane { call s g; call s f; }
every form of a target|0 m E::X^0 n E::Y^0 p E::Z^0 q E::W^|vsd 1^.class interface abstract I { .method newslot abstract virtual void M() { } .method newslot abstract virtual void N() { } }^.class interface abstract G`1<T> { .method newslot abstract virtual void Put(!T) { } .method newslot abstract virtual void Put(string) { } }^.class E implements I, class G`1<int32> { .method virtual void M() { } .method virtual void N() { } .method virtual void X() { .override I::M } .method virtual void Y() { .override method instance void I::N() } .method virtual void Z(int32) { } .method virtual void W(string) { } .override class G`1<int32>::Put with void E::Z(int32) .override method void class G`1<int32>::Put(string) with method instance void class E::W(string) }^%%^site m = I::M; site n = I::N; site p = class G`1<int32>::Put; site q = class G`1<int32>::Put#2; host e = E; lane { call m e; call n e; call p e; call q e; }
a passed method isn't counted|0 s A::M#2^|vsd 1^@^.class public A implements I { .method public instance void M(string) cil managed { } .method public newslot virtual void M(int32) { } ? }^%%^site s = I::M; host a = A; lane { call s a; }
quoted names|0 a site my class::the method^0 a site missing an interface::the method^|vsd 1^.class interface abstract 'an interface' { .method newslot abstract virtual void 'the method'() { } }^.class 'my class' implements 'an interface' { .method public virtual void 'the method'() { } }^.class Z { }^%%^site 'a site' = 'an interface'::'the method'; host h = 'my class'; host z = Z; lane { call 'a site' h; call 'a site' z; }
lanes in order|0 s A::M^1 x as a yes^1 s B::M^2 s A::M^|vsd 1^@^.class public A$^.class public B extends A implements I { ? }^%%^site s = I::M; host a = A; lane { call s a; } lane { load x = B; cast x a; call s x; } lane { load x = A; call s x; }
the first missing slot|refused 5 60 missing C J::N#2^|vsd 1^@^.class interface abstract J { .method newslot abstract virtual void N() { } .method newslot abstract virtual void N(int32) { } }^.class abstract B implements I { }^.class C extends B implements J { .method public virtual void N() { } }^%%^
";

/// Rows at the limits, which take longer.
static LIMITS: &[u8] =
    b"handles and rows again|~1000~0 s A::M^0 s B::M^~|vsd 1^@^.class public A$^.class public B$^%%^site s = I::M; lane { repeat 1000 { load x = A; call s x; unload x; load x = B; call s x; unload x; } }
as many operations as may be|~199999~0 x as x yes^~|vsd 1^%%^lane { load x = object; repeat 199999 { cast x x; } }
an operation too many|refused 3 24 too many operations^|vsd 1^%%^lane { load x = object; repeat 200000 { cast x x; } }
a repeat in a repeat|refused 3 24 too many operations^|vsd 1^%%^lane { load x = object; repeat 200000 { repeat 200000 { cast x x; } } }
too many slots|refused 262 61 too many slots^|vsd 1^.class interface abstract J0 { ~256~.method newslot abstract virtual void M&() { } ~}^.class interface abstract J1 { ~256~.method newslot abstract virtual void M&() { } ~}^.class interface abstract J2 { ~256~.method newslot abstract virtual void M&() { } ~}^.class interface abstract J3 { ~256~.method newslot abstract virtual void M&() { } ~}^~257~.class abstract C& implements J0, J1, J2, J3 { }^~%%^
too many slots before a missing one|refused 262 61 too many slots^|vsd 1^.class interface abstract J0 { ~256~.method newslot abstract virtual void M&() { } ~}^.class interface abstract J1 { ~256~.method newslot abstract virtual void M&() { } ~}^.class interface abstract J2 { ~256~.method newslot abstract virtual void M&() { } ~}^.class interface abstract J3 { ~256~.method newslot abstract virtual void M&() { } ~}^~256~.class abstract C& implements J0, J1, J2, J3 { }^~.class D implements J0, J1, J2, J3 { }^%%^
as many slots as may be||vsd 1^.class interface abstract J0 { ~256~.method newslot abstract virtual void M&() { } ~}^.class interface abstract J1 { ~256~.method newslot abstract virtual void M&() { } ~}^.class interface abstract J2 { ~256~.method newslot abstract virtual void M&() { } ~}^.class interface abstract J3 { ~256~.method newslot abstract virtual void M&() { } ~}^~256~.class abstract C& implements J0, J1, J2, J3 { }^~%%^
";

/// What a byte of a row stands for.
fn fragment(byte: u8) -> Option<&'static [u8]> {
    match byte {
        b'^' => Some(b"\n"),
        b'@' => Some(
            b".class interface public abstract I { .method public newslot abstract virtual instance void M() cil managed { } }",
        ),
        b'_' => Some(
            b".class interface public abstract IOut`1<+ T> { .method public newslot abstract virtual instance !T Get() cil managed { } }",
        ),
        b'$' => Some(
            b" extends [mscorlib]System.Object implements I { .method public newslot virtual instance void M() cil managed { } }",
        ),
        b'?' => Some(b".method public newslot virtual instance void M() cil managed { }"),
        _ => None,
    }
}

/// A part of a row, written out as its bytes come.
#[derive(Drop)]
pub(super) struct Written {
    pub(super) text: Vec<u8>,
    piece: Vec<u8>,
    rounds: u32,
    /// How many of the signs `~` around a piece have come.
    signs: u8,
}

impl Written {
    pub(super) fn new(alloc: Global) -> Written {
        Written {
            text: Vec::new(alloc),
            piece: Vec::new(alloc),
            rounds: 0,
            signs: 0,
        }
    }

    pub(super) fn clear(&mut self) {
        self.text.clear();
    }

    fn write(&mut self, alloc: Global, byte: u8, round: u32) -> Result<(), Fail> {
        if byte == b'&' {
            self.text
                .extend_from_slice(format!(in alloc; "{round}")?.as_bytes())?;
            return Ok(());
        }
        match fragment(byte) {
            Some(bytes) => self.text.extend_from_slice(bytes)?,
            None => self.text.push(byte)?,
        }
        Ok(())
    }

    fn repeat(&mut self, alloc: Global) -> Result<(), Fail> {
        for round in 0..self.rounds {
            for place in 0..self.piece.len() {
                if place < self.piece.len() {
                    let byte = self.piece[place];
                    self.write(alloc, byte, round)?;
                }
            }
        }
        Ok(())
    }

    pub(super) fn take(&mut self, alloc: Global, byte: u8) -> Result<(), Fail> {
        if byte == b'~' {
            self.signs = self.signs.wrapping_add(1);
            if self.signs == 3 {
                self.repeat(alloc)?;
                self.piece.clear();
                self.rounds = 0;
                self.signs = 0;
            }
            return Ok(());
        }
        match self.signs {
            0 => self.write(alloc, byte, 0)?,
            1 => {
                let digit = u32::from(byte.wrapping_sub(b'0'));
                self.rounds = self.rounds.wrapping_mul(10).wrapping_add(digit);
            }
            _ => self.piece.push(byte)?,
        }
        Ok(())
    }
}

/// The name of the first row whose text isn't answered as it says; none where all are.
pub(super) fn first_failing(alloc: Global, rows: &[u8]) -> Result<String, Fail> {
    let mut name = String::new(alloc);
    let mut output = Written::new(alloc);
    let mut text = Written::new(alloc);
    let mut parts = 0u8;
    for byte in rows {
        if *byte == b'\n' {
            let status = if output.text.starts_with(b"refused ") {
                3
            } else {
                0
            };
            if !Trial::of(&text.text).gives(alloc, status, &output.text)? {
                return Ok(name);
            }
            name = String::new(alloc);
            output.clear();
            text.clear();
            parts = 0;
        } else if *byte == b'|' {
            parts = parts.wrapping_add(1);
        } else if parts == 0 {
            name.push(char::from(*byte))?;
        } else if parts == 1 {
            output.take(alloc, *byte)?;
        } else {
            text.take(alloc, *byte)?;
        }
    }
    Ok(String::new(alloc))
}

#[test]
fn prints_what_each_text_answers(rt: HostRuntime) -> Result<(), Fail> {
    let failing = first_failing(rt.alloc(), ROWS)?;
    assert_eq!(rt; failing.as_str(), "");
    Ok(())
}

#[test]
fn prints_what_texts_at_the_limits_answer(rt: HostRuntime) -> Result<(), Fail> {
    let failing = first_failing(rt.alloc(), LIMITS)?;
    assert_eq!(rt; failing.as_str(), "");
    Ok(())
}
