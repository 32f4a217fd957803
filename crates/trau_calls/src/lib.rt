//! A live call as a C library. `clib/trau_call.h` at the top of the repository declares its exports.
//!
//! Layer: One call.
//!
//! Each export takes the call out of a `Handle`, which the C program holds and which is one pointer to it, calls one
//! function of `rtp_call`, puts the call back, and repeats the function's clauses for the handle's call before and
//! after (`FromTo`). Enums are numbers for C: an outcome, a side, a law. Only `trau_call_begin` allocates, and only
//! `trau_call_end` frees; so this library is another one than `trau_c`, which does neither.
//!
//! The exports don't test what C passes. The header says what the C program must ensure.
//!
//! `handle` owns the call's memory, over `parts`, a box as its pointer. `begin`, `packet`, `turn`, `give_up` and
//! `reports` have the exports.
//!
//! Definitions: `specs/Held.antt` (what a handle owns), `specs/Begun.antt` (that it has a call), `specs/Settings.antt`,
//! `specs/Packet.antt` (what a datagram does, by number), `specs/Turn.antt` (what a period replays),
//! `specs/Reports.antt`.
#![tactic(auto)]

mod begin;
mod give_up;
mod handle;
mod packet;
mod parts;
mod reports;
mod turn;
