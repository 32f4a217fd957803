//! What a period of the uplink brings.

use trau_frame::UpFrame;

/// What a period of the uplink brings: no yield of the search, a miss, or a frame.
#[derive(Clone, Copy)]
pub(crate) enum Found {
    Nothing,
    Missed,
    Frame(UpFrame),
}
