//! How many values a drawn grid can have.

/// How many values a grid can have (Mc, 0 to 3), one of which is drawn.
pub const GRID_VALUES: u16 = 4;
