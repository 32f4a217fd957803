//! Lines and a desk in memory.

mod desk;
mod line;
mod trunk;

pub use desk::MemDesk;
pub use trunk::MemTrunk;
