//! The lines of a script by hand, as a reader of them sees them.
ghost use Rattle.std.specs.Prelude.{◌≡◌, ◌∷◌, ◌++◌, [], IfOk, OnOk, length};
ghost use Rattle.vsd_ast.specs.Scripts.{IsWellFormedScript};

use super::*;
use sqlite_items::Items;
use std::alloc::{AllocError, Global};
use std::test::Fail;
use vsd_ast::{Bytes, Host, Lane, Op, Script, Site, Var};
use vsd_outside::MemorySink;
use vsd_terms::{Builtin, Term, Terms};

/// One root.
fn roots(alloc: Global) -> Result<Terms, AllocError>
    ensures { IfOk result (λ roots. length roots ≡ 1) }
{
    let mut roots = Terms::new(alloc);
    roots.push(Term::Builtin(Builtin::Object))?;
    Ok(roots)
}

/// A list of two things.
fn two<T: Drop>(alloc: Global, first: T, second: T) -> Result<Items<T>, AllocError>
    ensures { IfOk result (λ things. things ≡ first ∷ second ∷ []) }
{
    let mut things = Items::new(alloc);
    things.push(first)?;
    things.push(second)?;
    Ok(things)
}

/// A host of this name.
fn host(alloc: Global, name: u8) -> Result<Host, AllocError>
    ensures { IfOk result (λ host. (host.name ≡ name ∷ []) × (host.root ≡ 0)) }
{
    Ok(Host {
        name: Bytes::from_slice(alloc, &[name])?,
        root: 0,
    })
}

/// A site of this name.
fn site(alloc: Global, name: u8) -> Result<Site, AllocError>
    ensures { IfOk result (λ site. (site.name ≡ name ∷ []) × (site.root ≡ 0) × (site.slot ≡ 0)) }
{
    Ok(Site {
        name: Bytes::from_slice(alloc, &[name])?,
        root: 0,
        slot: 0,
    })
}

/// A lane without variables.
fn lane(alloc: Global, first: Op, second: Op) -> Result<Lane, AllocError>
    ensures { IfOk result (λ lane. (lane.names ≡ []) × (lane.ops ≡ first ∷ second ∷ [])) }
{
    Ok(Lane {
        names: Items::new(alloc),
        ops: Items::from_slice(alloc, &[first, second])?,
    })
}

/// Calls `s` on `p` and `t` on `q` in one lane, and casts `x` to `y` and to itself in the next.
fn rows(alloc: Global) -> Result<Script, AllocError>
    ensures lawful { IfOk result (λ script. IsWellFormedScript script) }
    ensures sites { IfOk result (λ script. length script.sites ≡ 2) }
    ensures lanes { IfOk result (λ script. script.lanes
        ≡ record { names = []; ops = Op.Call 0 (Var.Host 0) ∷ Op.Call 1 (Var.Host 1) ∷ [] }
        ∷ record { names = []; ops = Op.Cast (Var.Host 2) (Var.Host 3) ∷ Op.Cast (Var.Host 2) (Var.Host 2) ∷ [] } ∷ []) }
{
    let [p, q, x, y] = [Var::Host(0), Var::Host(1), Var::Host(2), Var::Host(3)];
    let mut hosts = two(alloc, host(alloc, b'p')?, host(alloc, b'q')?)?;
    hosts.append(two(alloc, host(alloc, b'x')?, host(alloc, b'y')?)?)?;
    let calls = lane(
        alloc,
        Op::Call { site: 0, object: p },
        Op::Call { site: 1, object: q },
    )?;
    let casts = lane(
        alloc,
        Op::Cast {
            source: x,
            target: y,
        },
        Op::Cast {
            source: x,
            target: x,
        },
    )?;
    Ok(Script {
        roots: roots(alloc)?,
        sites: two(alloc, site(alloc, b's')?, site(alloc, b't')?)?,
        hosts,
        lanes: two(alloc, calls, casts)?,
    })
}

/// Lines that fill no page are written at once: a second write would fail.
#[test]
fn writes_the_lines_of_rows(rt: HostRuntime) -> Result<(), Fail> {
    let alloc = rt.alloc();
    let script = rows(alloc)?;
    let methods = [Bytes::from_slice(alloc, b"P::Put")?];
    let slots = [
        Bytes::from_slice(alloc, b"IIn`1<string>::Put")?,
        Bytes::from_slice(alloc, b"IIn`1<object>::Put")?,
    ];
    let answers = [vec![in alloc; 1, 0]?, vec![in alloc; 0, 1]?];
    let mut sink = MemorySink::new(alloc, 4096, vec![in alloc; 2]?)?;
    let written = write_lines(
        alloc,
        &script,
        &[0, 1],
        &methods,
        &slots,
        &answers,
        &mut sink,
    );
    assert_eq!(rt; written, Ok(()));
    let text = b"0 s P::Put\n0 t missing IIn`1<object>::Put\n1 x as y no\n1 x as x yes\n";
    assert_eq!(rt; sink.bytes(), text.as_slice());
    Ok(())
}
