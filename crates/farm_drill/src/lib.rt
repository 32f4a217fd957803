//! Lines that are drawn from a seed, and the orders of a drill, to try a farm of up to 256 calls without a recording;
//! and uplinks that no base station sends.
//!
//! Layer: Drills.
//!
//! `drill` makes the lines of a whole farm, and the text of its orders, for a run over lines in memory (`drill_run`).
//! `uplink` and `pcm` make the periods of one call, of 40 and 160 octets, one after the other, for callers that post
//! them (`live_run`). `hostile` makes the Up line of one call, for tests.
//!
//! `draws` has the generator, `frames` the octets of a frame, `periods` those of a call's period, `lines` the lines of
//! a call, `orders` the text of the orders, `farm` the whole drill, `hostile_line` the hostile uplinks.
//!
//! All of it is this project's profile.
//! Definitions: `specs/Draws.antt` (each draw by its number), `specs/Uplink.antt` and `specs/Lines.antt` (the lines),
//! `specs/Orders.antt` (the orders), `specs/Hostile.antt` (the hostile uplinks).
#![tactic(auto)]

mod draws;
mod farm;
mod frames;
mod hostile_line;
mod lines;
mod orders;
mod periods;

pub use draws::Generator;
pub use farm::drill;
pub use hostile_line::hostile;
pub use periods::{pcm, uplink};
