//! The jitter buffer of one stream of RTP: what came and isn't played yet, in fixed memory, read once a tick of 20 ms.
//!
//! Layer: Live packets.
//!
//! It stands between the packets that `rtp_packet` reads and the two sides of a call. The gateway's loop calls it
//! through `trau_calls`.
//!
//! `store` and `pace` are two machines that know nothing of each other. The store knows of each octet of the last 256
//! periods whether it came and whether it was played (`octet`, `slot`, `store`). The pace decides which period is
//! played when: it keeps a playout delay, which moves by slips of one period, with a path that gets longer, and with
//! time that is given up (`pace`), by what it sees of the path (`watch`). `buffer` is both.
//!
//! Definitions: `specs/Octets.antt` and `specs/Store.antt` (what is known at each place), `specs/History.antt` (what is
//! played: the first octet that came for a place in time, or the filler), `specs/Watch.antt` and `specs/Pace.antt` (the
//! rules of the delay: this project's profile, as RFC 3550 leaves playout to the receiver), `specs/Buffer.antt`. Laws,
//! in `laws`, say what the pace's rules come to.
#![tactic(auto)]

mod buffer;
mod laws;
mod octet;
mod pace;
mod slot;
mod store;
mod watch;

pub use buffer::{Buffer, Outcome};
pub use laws::{
    depth_comes_back, depth_is_waited, most_bursts_are_in_time, one_in_a_hundred,
    slips_move_by_one, slips_rest_in_speech,
};
pub use octet::Octet;
pub use pace::{Owed, Pace, Wish};
pub use slot::Slot;
pub use store::Store;
pub use watch::{Burst, Watch};

// An octet's state takes two octets, so a period of the exchange 320.
const _: () = prove!(size_of::<Octet>() == 2);
