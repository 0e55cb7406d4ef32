//! The names of methods, and the buckets that names fall into: two names of different buckets differ.
ghost use Rattle.std.specs.Prelude.{◌≡◌, ◌<◌, length, IfOk};
ghost use Rattle.vsd_check.specs.Checked.{decls_of};
ghost use Rattle.vsd_types.specs.Types.{declaration_of, type_at};
ghost use Rattle.vsd_methods.specs.Methods.{methods_in};
ghost use Rattle.vsd_slots.specs.Named.{AreAllBuckets, AreBuckets, AreNamed, bucket};

use sqlite_items::Items;
use std::alloc::{AllocError, Global};
use vsd_ast::Method;
use vsd_check::Checked;
use vsd_methods::method_names;
use vsd_terms::Names;
use vsd_types::Closed;

/// The names of the methods of each declaration.
#[derive(Drop)]
pub(crate) struct Named {
    /// For each declaration its methods' names, by which one is found.
    pub(crate) names: Items<Names>,
    /// For each declaration the buckets of the names of its methods.
    pub(crate) buckets: Items<Items<u8>>,
}

// The bucket of a name.
fn bucket(name: &[u8]) -> u8
    ensures { result ≡ bucket name.now }
{
    let mut n = 0u32;
    for k in 0..name.len() {
        n = (n * 31 + u32::from(name[k])) % 256;
    }
    n as u8
}

// The buckets of the names of methods.
fn buckets_of(alloc: Global, methods: &[Method]) -> Result<Items<u8>, AllocError>
    ensures { IfOk result (AreBuckets methods.now) }
{
    let mut found = Items::new(alloc);
    for m in 0..methods.len() {
        found.push(bucket(methods[m].name.as_slice()))?;
    }
    Ok(found)
}

// For each declaration the buckets of the names of its methods.
fn all_buckets(alloc: Global, checked: &Checked) -> Result<Items<Items<u8>>, AllocError>
    ensures { IfOk result (AreAllBuckets (decls_of checked.now).list) }
{
    let decls = checked.decls().list.as_slice();
    let mut found = Items::new(alloc);
    for place in 0..decls.len() {
        found.push(buckets_of(alloc, decls[place].methods.as_slice())?)?;
    }
    Ok(found)
}

/// The names of the methods of each declaration.
pub(crate) fn name_methods(alloc: Global, checked: &Checked) -> Result<Named, AllocError>
    ensures { IfOk result (AreNamed (decls_of checked.now).list) }
{
    Ok(Named {
        names: method_names(alloc, checked)?,
        buckets: all_buckets(alloc, checked)?,
    })
}

/// The buckets of the names of the methods of a type's declaration. A built-in has no methods.
pub(crate) fn buckets_at<'a>(closed: &Closed, named: &'a Named, t: u16) -> &'a [u8]
    requires named { AreNamed closed.now.decls.list named.now }
    requires within { t < length closed.now.types }
    ensures { AreBuckets (methods_in (declaration_of closed.now.decls.list (type_at closed.now.types t))) result.now }
{
    match closed.declaration(t) {
        Some(place) => named.buckets.as_slice()[place as usize].as_slice(),
        None => &[],
    }
}
