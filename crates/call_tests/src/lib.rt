//! Tests of the crates that process one call or two bridged ones, of a live farm, and of the base station's end.
//!
//! Layer: Tests.
//!
//! They have a crate of their own, since a crate with tests is proved a second time together with them. They call
//! public functions only.
#![tactic(auto)]

#[cfg(test)]
mod call_leg_tests;
#[cfg(test)]
mod ccu_end_tests;
#[cfg(test)]
mod down_framer_tests;
#[cfg(test)]
mod farm_live_callers_tests;
#[cfg(test)]
mod farm_live_tests;
#[cfg(test)]
mod fr_sides_tests;
#[cfg(test)]
mod rows;
#[cfg(test)]
mod rx_handler_tests;
#[cfg(test)]
mod rx_noise_tests;
#[cfg(test)]
mod rx_subst_tests;
#[cfg(test)]
mod time_align_tests;
#[cfg(test)]
mod tx_dtx_tests;
