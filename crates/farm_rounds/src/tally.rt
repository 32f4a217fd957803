//! The tally of a call: what is kept of it when it ends.

use trau_io::{Counts, NO_COUNTS};

/// What was counted of a call, and how many handed frames of its latest bridge it sent.
#[derive(Clone, Copy)]
pub(crate) struct Tally {
    pub(crate) counts: Counts,
    pub(crate) sent: u32,
}

/// The tally that is kept of a call that hasn't ended.
pub(crate) const NO_TALLY: Tally = Tally {
    counts: NO_COUNTS,
    sent: 0,
};
