//! Tests of the crates that read and write (numbers, bits, frames, lines, files, orders, marks, drills and words), and
//! of the board, the pool machine and the report.
//!
//! Layer: Tests.
//!
//! They are a crate of their own, since a crate with tests is proved a second time with them. They call public
//! functions only.
#![tactic(auto)]

#[cfg(test)]
mod command_words_tests;
#[cfg(test)]
mod decimal_number_tests;
#[cfg(test)]
mod farm_checkpoint_tests;
#[cfg(test)]
mod farm_drill_tests;
#[cfg(test)]
mod farm_orders_tests;
#[cfg(test)]
mod farm_report_tests;
#[cfg(test)]
mod frame_sync_tests;
#[cfg(test)]
mod pool_core_tests;
#[cfg(test)]
mod reasons_tests;
#[cfg(test)]
mod rows;
#[cfg(test)]
mod switchboard_tests;
#[cfg(test)]
mod trau_bits_tests;
#[cfg(test)]
mod trau_files_tests;
#[cfg(test)]
mod trau_frame_tests;
#[cfg(test)]
mod trau_io_tests;
#[cfg(test)]
mod trau_orders_tests;
