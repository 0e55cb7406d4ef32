//! What a table is told.
use crate::sizes::Sizes;
use crate::world::World;

/// What is fixed when a table is laid out. All of its seats know it.
#[derive(Drop)]
pub struct Key {
    pub sizes: Sizes,
    pub world: World,
}
