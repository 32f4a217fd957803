//! What the callers of a live drill share.

use crate::size::LiveDrill;
use farm_live::Live;
use std::alloc::Global;

/// What the callers of a live drill share: the system, its memory, the farm, the numbers of the drill and the gate.
#[derive(Drop)]
pub(crate) struct Shared<'a, R, G> {
    pub(crate) rt: &'a R,
    pub(crate) alloc: Global,
    pub(crate) live: &'a Live,
    pub(crate) drill: LiveDrill,
    pub(crate) gate: &'a G,
}
