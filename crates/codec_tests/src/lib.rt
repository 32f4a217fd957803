//! Tests of the codec's crates (`fr_*`), its arithmetic and its parameters, and of A-law and mu-law.
//!
//! Layer: Tests.
//!
//! They are in a crate of their own, because a crate with tests is proved a second time with them. They call public
//! functions only.
#![tactic(auto)]

#[cfg(test)]
mod fr_decoder_tests;
#[cfg(test)]
mod fr_encoder_tests;
#[cfg(test)]
mod fr_long_tests;
#[cfg(test)]
mod fr_lpc_tests;
#[cfg(test)]
mod fr_pre_tests;
#[cfg(test)]
mod fr_rpe_tests;
#[cfg(test)]
mod fr_short_tests;
#[cfg(test)]
mod rows;
#[cfg(test)]
mod trau_alaw_tests;
#[cfg(test)]
mod trau_num_tests;
#[cfg(test)]
mod trau_params_tests;
