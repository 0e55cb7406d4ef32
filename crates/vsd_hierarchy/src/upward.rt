//! Declarations as graphs: which declarations each one names above itself.
ghost use Rattle.std.specs.Prelude.{◌≡◌, ◌++◌, ◌∷◌, [], cond, option_copied, IfOk, OnOk};
ghost use Rattle.vsd_ast.specs.Hierarchy.{above, base_terms};
ghost use Rattle.vsd_ast.specs.Lookup.{head_of};
ghost use Rattle.vsd_hierarchy.specs.Cycles.{followed, graph_of, place_named, places_of, interface_terms, named_by, is_interface, is_class, required, base_class};

use sqlite_items::Items;
use std::alloc::{AllocError, Global};
use vsd_ast::{Decl, Located};
use vsd_lawful::Scope;
use vsd_terms::Term;

fn place_named(scope: &Scope, term: &Term) -> Option<u16>
    ensures { result ≡ place_named scope.now.list.now (head_of term.now) }
{
    match term {
        Term::Named { name, args: _ } => scope.place(*name),
        _ => None,
    }
}

fn add(scope: &Scope, places: &mut Items<u16>, term: &Term) -> Result<(), AllocError>
    ensures { OnOk result (places.new ≡ places.old ++ places_of scope.now.list.now (term.now ∷ [])) }
{
    if let Some(place) = place_named(scope, term) {
        places.push(place)?;
    }
    Ok(())
}

fn add_base(
    scope: &Scope,
    places: &mut Items<u16>,
    base: &Option<Located>,
) -> Result<(), AllocError>
    ensures { OnOk result (places.new ≡ places.old ++ places_of scope.now.list.now (base_terms base.now)) }
{
    match base {
        Some(base) => add(scope, places, &base.term),
        None => Ok(()),
    }
}

fn add_interfaces(
    scope: &Scope,
    places: &mut Items<u16>,
    interfaces: &[Located],
) -> Result<(), AllocError>
    ensures { OnOk result (places.new ≡ places.old ++ places_of scope.now.list.now (interface_terms interfaces.now)) }
{
    for interface in interfaces {
        add(scope, places, &interface.term)?;
    }
    Ok(())
}

/// For each declaration the places of the declarations that it names right above itself.
pub(crate) fn above_graph(alloc: Global, scope: &Scope) -> Result<Items<Items<u16>>, AllocError>
    ensures { IfOk result (λ graph. graph ≡ graph_of scope.now.list.now above) }
{
    let mut graph = Items::new(alloc);
    for decl in scope.list {
        let mut places = Items::new(alloc);
        add_base(scope, &mut places, &decl.base)?;
        add_interfaces(scope, &mut places, decl.interfaces.as_slice())?;
        graph.push(places)?;
    }
    Ok(graph)
}

fn named<'a>(scope: &Scope<'a>, term: &Term) -> Option<&'a Decl>
    ensures { option_copied result ≡ named_by scope.now.list.now (head_of term.now) }
{
    match term {
        Term::Named { name, args: _ } => scope.declared(*name),
        _ => None,
    }
}

fn is_interface(scope: &Scope, term: &Term) -> bool
    ensures { result ≡ is_interface (named_by scope.now.list.now (head_of term.now)) }
{
    match named(scope, term) {
        Some(decl) => decl.is_interface,
        None => false,
    }
}

fn is_class(scope: &Scope, term: &Term) -> bool
    ensures { result ≡ is_class (named_by scope.now.list.now (head_of term.now)) }
{
    match named(scope, term) {
        Some(decl) => !decl.is_interface,
        None => false,
    }
}

fn add_if(
    scope: &Scope,
    places: &mut Items<u16>,
    wanted: bool,
    term: &Term,
) -> Result<(), AllocError>
    ensures { OnOk result (places.new ≡ places.old ++ places_of scope.now.list.now (cond wanted (term.now ∷ []) [])) }
{
    if wanted {
        add(scope, places, term)?;
    }
    Ok(())
}

fn add_base_class(
    scope: &Scope,
    places: &mut Items<u16>,
    base: &Option<Located>,
) -> Result<(), AllocError>
    ensures { OnOk result (places.new ≡ places.old ++ places_of scope.now.list.now (base_class scope.now.list.now base.now)) }
{
    match base {
        Some(base) => {
            let wanted = is_class(scope, &base.term);
            add_if(scope, places, wanted, &base.term)
        }
        None => Ok(()),
    }
}

fn add_required(
    scope: &Scope,
    places: &mut Items<u16>,
    interfaces: &[Located],
) -> Result<(), AllocError>
    ensures { OnOk result (places.new ≡ places.old ++ places_of scope.now.list.now (required scope.now.list.now interfaces.now)) }
{
    for interface in interfaces {
        let wanted = is_interface(scope, &interface.term);
        add_if(scope, places, wanted, &interface.term)?;
    }
    Ok(())
}

/// For each declaration the places of those that one follows from it to see whether it reaches itself: from a class its base
/// where that is a class, from an interface the interfaces that it requires.
pub(crate) fn followed_graph(alloc: Global, scope: &Scope) -> Result<Items<Items<u16>>, AllocError>
    ensures { IfOk result (λ graph. graph ≡ graph_of scope.now.list.now (followed scope.now.list.now)) }
{
    let mut graph = Items::new(alloc);
    for decl in scope.list {
        let mut places = Items::new(alloc);
        if decl.is_interface {
            add_required(scope, &mut places, decl.interfaces.as_slice())?;
        } else {
            add_base_class(scope, &mut places, &decl.base)?;
        }
        graph.push(places)?;
    }
    Ok(graph)
}
