//! Saturating arithmetic of the full rate codec (GSM 06.10, section 4), and this project's random source.
//!
//! Layer: Numbers, bits and lines.
//!
//! Every stage of the codec computes with these functions, and the receive side draws from the random source. Each
//! operation is the exact whole number, clamped to its type. So -32768 times -32768 needs no case of its own.
//!
//! `words` has the operations on 16 bits, `long_words` those on 32 bits, `products` the basic step of the filters (the
//! sum of a word and a rounded product), `random` the random source.
//!
//! Definitions: `specs/Num.antt`, `specs/Random.antt`, and `specs/Weights.antt` (the weight of a list). Lemmas that
//! other crates use too: `proofs/Fill.antt` (lists of a fixed size that a loop fills entry by entry),
//! `proofs/Eight.antt` (what holds at each of eight places), `proofs/Greatest.antt` (a search for the least number at
//! which a function is greatest), `proofs/Clamped.antt` (a saturated number is a word), `proofs/Fitting.antt` (numbers
//! that fit a word), `proofs/Mapped.antt` (a loop that
//! maps one sample after another) and `proofs/Weights.antt` (weights of lists, added up).
#![tactic(auto)]

mod long_words;
mod products;
mod random;
mod words;

pub use long_words::{l_add, l_mult, l_sub, norm};
pub use products::{plus, product, scaled};
pub use random::Draw;
pub use words::{abs16, add, clamp, div_q15, mult, mult_r, shl16, sub};
