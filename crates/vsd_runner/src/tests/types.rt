//! Which types are compatible, each pair of a declared set, and the limits of what a text closes to.
use super::rows::first_failing;
use super::trials::Trial;
use std::alloc::Global;
use std::test::Fail;

/// Declarations, and from `|` to `~` a line for each of some types: first, for each of these types in their order, whether this
/// one is compatible with it, and then how the type is written. Worked out beside this program by the rules of ECMA-335,
/// I.8.7.
static RELATIONS: &[u8] =
    b".class interface public abstract IOut`1<+ T> { .method public newslot abstract virtual instance !T Get() cil managed { } }
|1000100 class IOut`1<int32>
0100100 class IOut`1<object>
0110100 class IOut`1<string>
0001101 int32
0000100 object
0000110 string
0000101 System.ValueType
~
.class interface public abstract N`1<- Z> { }
.class public C implements class N`1<class N`1<class C>> { }
|1011 class C
0110 class N`1<class C>
0010 object
0011 class N`1<class N`1<class C>>
~
.class interface abstract V<+ T> { }
.class Y<T> { }
.class X<T> extends class Y<!T> implements class V<!T> { }
|11110 class X<string>
01000 object
01100 class Y<string>
01010 class V<string>
01001 string
~
.class interface abstract V<+ T> { }
.class interface abstract W<- T> { }
.class interface abstract I<T> { }
.class A { }
.class B extends A { }
.class sealed S extends System.ValueType implements class V<class B> { }
.class G<T> implements class V<!T> { }
|100000000000001000 class A
110000000000001000 class B
001010000000001110 valuetype S
000110000000001010 class G<class B>
000010000000001000 class V<class A>
000001100000001000 class W<class A>
000000100000001000 class W<class B>
000000010000001000 class I<class A>
000000001000001000 class I<class B>
000000000100001000 class V<valuetype S>
000000000010001000 class V<System.ValueType>
000000000001001000 class W<valuetype S>
000001100000101000 class W<object>
000000000000011000 class V<class G<class A>>
000000000000001000 object
000000000000001100 System.ValueType
000010000000001010 class V<class B>
000010000000001001 class G<class A>
~
.class interface abstract V<+ T> { }
.class interface abstract W<- T> { }
.class interface abstract E<T> implements class V<!T> { }
.class interface abstract P<+ T, - U, X> { }
.class A { }
.class B extends A implements class E<class A> { }
|1000000000010000000 class A
1100000000011000010 class B
0010000000010000000 class W<class W<class A>>
0011000000010000000 class W<class W<class B>>
0000100001010000000 class P<class A, class B, string>
0000111001010000000 class P<class B, class A, string>
0000101001010000000 class P<class B, class B, string>
0000000100010000000 class P<class A, class B, object>
0000000010010000000 class P<int32, class B, string>
0000000001010000000 class P<object, class B, string>
0000000000110000010 class V<class B>
0000000000010000000 object
0000000000011000010 class E<class A>
0000000000010110000 class W<class A>
0000000000010010000 class W<class B>
0000000000010001000 string
0000000000010000101 int32
0000000000010000010 class V<class A>
0000000000010000001 System.ValueType
~";

/// Rows as those of texts. A list has 1,024 types at most, a type 16 levels and 1,024 bytes where it is printed. A full list takes
/// no type: one that is too deep is refused as that, and where an earlier type is refused a later one isn't looked at.
static LIMITS: &[u8] =
    b"1,024 types||vsd 1^~1021~.class interface abstract I& { } ~ .class interface abstract J { } .class interface abstract K { } .class interface abstract L { }^%%^
1,024 types with a base||vsd 1^~1021~.class interface abstract I& { } ~ .class interface abstract J { } .class C { }^%%^
a type too many|refused 0 50 too many types^|vsd 1^~1021~.class interface abstract I& { } ~ .class interface abstract J { } .class interface abstract K { } .class C { }^%%^
16 levels||vsd 1^.class interface abstract G<T> { } .class interface abstract D<T> implements class G<class G<!T>> { }^%% host a = class D<~13~class G<~string~13~>~>;^
17 levels|refused 0 51 too deep^|vsd 1^.class interface abstract G<T> { } .class interface abstract D<T> implements class G<class G<!T>> { }^%% host a = class D<class G<~13~class G<~string~13~>~>>;^
too deep where the list is full|refused 0 51 too deep^|vsd 1^~1021~.class interface abstract I& { } ~ .class interface abstract G<T> { } .class interface abstract D<T> implements class G<class G<!T>> { }^%% host a = class G<class I0>; host b = class G<class G<class I0>>; host c = class D<class G<~13~class G<~class I0~13~>~>>;^
too many where a deep one is listed|refused 0 50 too many types^|vsd 1^~1021~.class interface abstract I& { } ~ .class interface abstract G<T> { } .class interface abstract D<T> implements class G<class G<!T>> { }^%% host a = class G<class I0>; host b = class G<class G<class I0>>; host c = class D<~13~class G<~class I0~13~>~>;^
too many after a deep one|refused 0 50 too many types^|vsd 1^~1021~.class interface abstract I& { } ~ .class interface abstract G<T> { } .class interface abstract D<T> implements class G<class G<!T>> { }^%% host a = class D<class G<~13~class G<~class I0~13~>~>>; host b = class G<class I0>; host c = class G<class G<class I0>>;^host d = class G<class G<class G<class I0>>>;^
1,024 printed bytes||vsd 1^.class interface abstract Q<T, U, V, W> { } .class ~250~x~aaaaa { } .class ~250~x~aaa { }^%% host a = class Q<class ~250~x~aaaaa, class ~250~x~aaaaa, class ~250~x~aaaaa, class ~250~x~aaa>;^
1,025 printed bytes|refused 0 51 too deep^|vsd 1^.class interface abstract Q<T, U, V, W> { } .class ~250~x~aaaaa { } .class ~250~x~aaaa { }^%% host a = class Q<class ~250~x~aaaaa, class ~250~x~aaaaa, class ~250~x~aaaaa, class ~250~x~aaaa>;^
";

/// What is read of one table of types.
#[derive(Drop)]
struct Table {
    declarations: Vec<u8>,
    hosts: Vec<u8>,
    bits: Vec<u8>,
    count: u32,
}

impl Table {
    fn new(alloc: Global) -> Table {
        Table {
            declarations: Vec::new(alloc),
            hosts: Vec::new(alloc),
            bits: Vec::new(alloc),
            count: 0,
        }
    }

    /// Begins the host of one more type.
    fn begin_host(&mut self, alloc: Global) -> Result<(), Fail> {
        let number = self.count;
        self.hosts
            .extend_from_slice(format!(in alloc; "host h{number} = ")?.as_bytes())?;
        self.count = number.wrapping_add(1);
        Ok(())
    }

    /// The declarations, a host of each type, and a cast of each to each.
    fn text(&self, alloc: Global) -> Result<Vec<u8>, Fail> {
        let mut text = Vec::from_slice(alloc, b"vsd 1\n")?;
        text.extend_from_slice(&self.declarations)?;
        text.extend_from_slice(b"%%\n")?;
        text.extend_from_slice(&self.hosts)?;
        text.extend_from_slice(b"lane { ")?;
        for source in 0..self.count {
            for target in 0..self.count {
                let cast = format!(in alloc; "cast h{source} h{target}; ")?;
                text.extend_from_slice(cast.as_bytes())?;
            }
        }
        text.extend_from_slice(b"}\n")?;
        Ok(text)
    }

    /// What the casts print.
    fn answers(&self, alloc: Global) -> Result<Vec<u8>, Fail> {
        let mut answers = Vec::new(alloc);
        let mut bits = self.bits.iter();
        for source in 0..self.count {
            for target in 0..self.count {
                let word = if bits.next() == Some(&b'1') {
                    "yes"
                } else {
                    "no"
                };
                let line = format!(in alloc; "0 h{source} as h{target} {word}\n")?;
                answers.extend_from_slice(line.as_bytes())?;
            }
        }
        Ok(answers)
    }
}

/// Where in a table of types a byte stands.
#[derive(Clone, Copy, PartialEq, Eq)]
enum Part {
    Declarations,
    Bits,
    Type,
}

#[test]
fn each_pair_of_types_is_related_by_the_rules(rt: HostRuntime) -> Result<(), Fail> {
    let alloc = rt.alloc();
    let mut table = Table::new(alloc);
    let mut part = Part::Declarations;
    for byte in RELATIONS {
        match (part, *byte) {
            (_, b'~') => {
                let wanted = table.answers(alloc)?;
                assert!(rt; Trial::of(&table.text(alloc)?).gives(alloc, 0, &wanted)?);
                table = Table::new(alloc);
                part = Part::Declarations;
            }
            (Part::Declarations, b'|') => part = Part::Bits,
            (Part::Declarations, other) => table.declarations.push(other)?,
            (Part::Bits, b' ') => {
                table.begin_host(alloc)?;
                part = Part::Type;
            }
            (Part::Bits, bit) => table.bits.push(bit)?,
            (Part::Type, b'\n') => {
                table.hosts.extend_from_slice(b";\n")?;
                part = Part::Bits;
            }
            (Part::Type, other) => table.hosts.push(other)?,
        }
    }
    Ok(())
}

#[test]
fn closes_up_to_each_limit(rt: HostRuntime) -> Result<(), Fail> {
    let failing = first_failing(rt.alloc(), LIMITS)?;
    assert_eq!(rt; failing.as_str(), "");
    Ok(())
}
