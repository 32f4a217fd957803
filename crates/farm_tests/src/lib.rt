//! Tests of the top function and of the pool: operations on lines and desk that fail, runs in memory, over lines and
//! over files, workers that steal.
//!
//! Layer: Tests.
//!
//! They are in a crate of their own, since a crate with tests is proved a second time with them. They call public
//! functions only.
//!
//! Definitions: `specs/Counter.antt` (the job of the tests of the pool, which writes down how many places remain).
#![tactic(auto)]

#[cfg(test)]
mod between;
#[cfg(test)]
mod cases;
#[cfg(test)]
mod commands;
#[cfg(test)]
mod counts;
#[cfg(test)]
mod desk;
#[cfg(test)]
mod endless;
#[cfg(test)]
mod farm_top_desk_tests;
#[cfg(test)]
mod farm_top_drill_tests;
#[cfg(test)]
mod farm_top_faults_tests;
#[cfg(test)]
mod farm_top_follow_tests;
#[cfg(test)]
mod farm_top_gate_tests;
#[cfg(test)]
mod farm_top_live_tests;
#[cfg(test)]
mod farm_top_phases_tests;
#[cfg(test)]
mod farm_top_rows_tests;
#[cfg(test)]
mod farm_top_run_tests;
#[cfg(test)]
mod farm_top_save_tests;
#[cfg(test)]
mod farm_top_slots_tests;
#[cfg(test)]
mod farm_top_tests;
#[cfg(test)]
mod held;
#[cfg(test)]
mod lines;
#[cfg(test)]
mod memory_folder_tests;
#[cfg(test)]
mod met;
#[cfg(test)]
mod paired;
#[cfg(test)]
mod pool_run_tests;
#[cfg(test)]
mod rows;
#[cfg(test)]
mod two_calls;
#[cfg(test)]
mod watched;
