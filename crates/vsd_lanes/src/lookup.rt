//! The sites and hosts that names mean.
ghost use Rattle.std.specs.Prelude.{◌≡◌};
ghost use Rattle.vsd_lanes.specs.Setting as spec;

use crate::ground::Ground;
use vsd_ast::{Host, Site};
use vsd_terms::Terms;

impl<'a> Ground<'a> {
    /// The number, from 0, of the first site of this name, where it is below 65,536.
    pub fn site(&self, name: &[u8]) -> Option<u16>
        ensures { result ≡ spec.site_number self.now.sites.now name.now }
    {
        numbered(site_in(self.sites, name))
    }

    /// The number, from 0, of the first host of this name, where it is below 65,536.
    pub fn host(&self, name: &[u8]) -> Option<u16>
        ensures { result ≡ spec.host_number self.now.hosts.now name.now }
    {
        numbered(host_in(self.hosts, name))
    }

    /// Whether a host is of a class that isn't abstract, among these roots.
    pub fn is_concrete_host(&self, roots: &Terms, host: u16) -> bool
        ensures { result ≡ spec.is_concrete_host (spec.setting_of self.now) roots.now host }
    {
        match self.hosts.get(host as usize) {
            Some(host) => match roots.get(host.root as usize) {
                Some(term) => self.types.is_concrete(term),
                None => false,
            },
            None => false,
        }
    }
}

/// A place as a number, where it is below 65,536.
pub fn numbered(place: Option<usize>) -> Option<u16>
    ensures { result ≡ spec.numbered place }
{
    match place {
        Some(place) => {
            if place < 65536 {
                Some(place as u16)
            } else {
                None
            }
        }
        None => None,
    }
}

/// The place, from 0, of the first site of this name.
#[tactic(auto, unfolding(crate::specs::Setting::place_from))]
pub fn site_in(sites: &[Site], name: &[u8]) -> Option<usize>
    ensures { result ≡ spec.site_in sites.now name.now }
{
    for place in 0..sites.len() {
        if sites[place].name.as_slice() == name {
            return Some(place);
        }
    }
    None
}

/// The place, from 0, of the first host of this name.
#[tactic(auto, unfolding(crate::specs::Setting::place_from))]
pub fn host_in(hosts: &[Host], name: &[u8]) -> Option<usize>
    ensures { result ≡ spec.host_in hosts.now name.now }
{
    for place in 0..hosts.len() {
        if hosts[place].name.as_slice() == name {
            return Some(place);
        }
    }
    None
}
