//! What stands while a lane is read.

use crate::types::Types;
use vsd_ast::{Host, Site};

/// What stands while a lane is read.
#[derive(Clone, Copy)]
pub struct Ground<'a> {
    pub types: Types<'a>,
    pub sites: &'a [Site],
    pub hosts: &'a [Host],
    /// How many operations the lane may have, after those of earlier lanes.
    pub room: usize,
}
