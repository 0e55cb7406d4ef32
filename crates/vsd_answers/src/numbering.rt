//! Numbers of dispatch tokens.
ghost use Rattle.std.specs.Prelude.{◌≡◌, ◌+◌, ◌≤◌, All, length, vec_len, IfOk, OnOk};
ghost use Rattle.vsd_ast.specs.Scripts.{IsSite};
ghost use Rattle.vsd_answers.specs.Numbering.{place_of_pair, site_pairs, site_tokens_of, tokens_of, with_pair};

use std::alloc::{AllocError, Global};
use vsd_ast::Site;

/// The dispatch tokens of the sites of a script: pairs of the number of an interface's type and a slot.
#[derive(Drop)]
pub struct Tokens {
    /// Each pair once, in order of first appearance among the sites.
    pub list: Vec<(u16, u16)>,
    /// The token of each site, by its place in the list.
    pub sites: Vec<u16>,
}

/// The pair of each site, in order of the sites: the number of its interface's type and its slot. `types` has the number of
/// each root's type. The error is want of memory.
pub fn pairs_of_sites(
    alloc: Global,
    sites: &[Site],
    types: &[u16],
) -> Result<Vec<(u16, u16)>, AllocError>
    requires { All (IsSite (length types.now)) sites.now }
    ensures { IfOk result (λ pairs. pairs.items ≡ site_pairs sites.now types.now) }
{
    let mut pairs = Vec::with_capacity(alloc, sites.len())?;
    for site in sites {
        pairs.push((types[site.root as usize], site.slot))?;
    }
    Ok(pairs)
}

/// Numbers the pairs of the sites, at most 256, each of a type's number and a slot, from 0 in order of first appearance. The
/// error is want of memory.
pub fn number_tokens(alloc: Global, pairs: &[(u16, u16)]) -> Result<Tokens, AllocError>
    requires { length pairs.now ≤ 256 }
    ensures tokens { IfOk result (λ tokens. tokens.list.items ≡ tokens_of pairs.now) }
    ensures sites { IfOk result (λ tokens. tokens.sites.items ≡ site_tokens_of pairs.now) }
{
    let mut list = Vec::new(alloc);
    let mut sites = Vec::with_capacity(alloc, pairs.len())?;
    for pair in pairs {
        sites.push(number_of(&mut list, *pair)? as u16)?;
    }
    Ok(Tokens { list, sites })
}

/// The number of a pair, which comes to the end of the list where it isn't there yet.
fn number_of(list: &mut Vec<(u16, u16)>, pair: (u16, u16)) -> Result<usize, AllocError>
    ensures list { OnOk result (list.new.items ≡ with_pair list.old.items pair) }
    ensures number { IfOk result (λ number. number ≡ place_of_pair list.old.items pair) }
    ensures within { IfOk result (λ number. number ≤ vec_len list.old) }
    ensures one_more { OnOk result (vec_len list.new ≤ vec_len list.old + 1) }
{
    let place = place_of(list, pair);
    if place == list.len() {
        list.push(pair)?;
    }
    Ok(place)
}

/// The place of a pair in a list, or the list's length.
fn place_of(list: &[(u16, u16)], pair: (u16, u16)) -> usize
    ensures place { result ≡ place_of_pair list.now pair }
    ensures within { result ≤ length list.now }
{
    for (place, other) in list.iter().enumerate() {
        if *other == pair {
            return place;
        }
    }
    list.len()
}
