//! What the report needs to know of the past, and neither the board nor the farm keeps.

ghost use Rattle.std.specs.Prelude.{◌≡◌, ◌<◌, [], ◌∷◌, ◌++◌, length, IfOk};

use std::alloc::{AllocError, Global};
use std::marker::Model;
use trau_orders::MOST_LINES;

/// How many handed frames the two calls of a bridge had sent in their bridges before it. Of a call's first bridge it
/// says nothing.
#[derive(Clone, Copy)]
pub(crate) struct SentBefore {
    pub(crate) by_a: u32,
    pub(crate) by_b: u32,
}

/// These numbers for each bridge, in the order in which the bridges began. Nothing that was noted ever changes.
#[derive(Drop)]
pub(crate) struct Notes {
    bridges: Vec<SentBefore>,
}

impl Model for Notes {
    ghost use Rattle.std.specs.Prelude.{◌≤◌, List, vec_capacity};
    ghost use Rattle.farm_run.specs.declared.notes.SentBefore.{SentBefore as AnySentBefore};

    ghost Value = { List AnySentBefore };

    ghost view = { λ n. n.bridges.items };

    ghost invariant = { λ n. 65536 ≤ vec_capacity n.bridges };
}

impl Notes {
    /// The notes before the first order. They have room for all that will ever be noted.
    pub(crate) fn new(alloc: Global) -> Result<Notes, AllocError>
        ensures { IfOk result (λ notes. notes ≡ []) }
    {
        // An order makes at most one bridge.
        Ok(Notes {
            bridges: Vec::with_capacity(alloc, MOST_LINES)?,
        })
    }

    /// Notes that a bridge begins, whose calls have sent so many frames in their bridges before.
    pub(crate) fn bridge(&mut self, by_a: u32, by_b: u32)
        requires { length self.old < 65536 }
        ensures { self.new ≡ self.old ++ record { by_a = by_a; by_b = by_b } ∷ [] }
    {
        self.bridges.push_reserved(SentBefore { by_a, by_b });
    }

    /// What was noted of the bridges, in the order in which they began.
    pub(crate) fn bridges(&self) -> &[SentBefore]
        ensures { result.now ≡ self.now }
    {
        self.bridges.as_slice()
    }
}
