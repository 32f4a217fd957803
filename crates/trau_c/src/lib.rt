//! The full rate codec, both sides of a call, the packings of frames, A-law and mu-law as a C library. `clib/trau_fr.h`
//! at the top of the repository declares its exports.
//!
//! Layer: Both sides of a call by themselves.
//!
//! The C program holds the states of encoders, decoders, receivers and senders, which are structs of numbers. It gets
//! them from `trau_fr_encoder_home`, `trau_fr_decoder_home`, `trau_fr_receiver_home` and `trau_fr_sender_home`. No
//! export allocates, waits or keeps anything, so functions can be called on different states at the same time. Each
//! export calls one function of another crate, and repeats its clauses in terms of what C gets; `trau_fr_decode_octets`
//! unpacks and decodes, `trau_fr_encode_octets` encodes and packs.
//!
//! The exports don't test what C passes. The header says what the C program must ensure: good pointers, states that
//! come from these four functions and that only exports write, and each field of a frame that is read within its width.
//! A frame that is only written is a `Frame`, which asks for no widths.
//!
//! Definitions: `specs/DecodedOctets.antt`, `specs/Frame.antt` (a frame that an export writes).
#![tactic(auto)]

mod decoder;
mod encoder;
mod frame;
mod law;
mod lines;
mod octets;
mod receiver;
mod sender;
