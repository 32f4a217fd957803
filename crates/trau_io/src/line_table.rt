//! Indices into a list of all lines.

ghost use Rattle.std.specs.Prelude.{◌≡◌, ◌<◌};
ghost use Rattle.trau_io.specs.Indices.{number_of_side, index_of_line};
ghost use Rattle.trau_io.specs.declared.line_table.TheConstants.{LINE_INDICES};

use crate::{Line, Side};
use call_number::NUMBERS;

/// The length of a list of all lines: four entries for each call number, and four unused ones for number 0.
pub const LINE_INDICES: usize = 4 * NUMBERS;

fn number_of(side: Side) -> usize
    ensures value { result ≡ number_of_side side }
    ensures small { result < 4 }
{
    match side {
        Side::Up => 0,
        Side::Pcm => 1,
        Side::Down => 2,
        Side::Out => 3,
    }
}

/// The index of a line in a list of all lines.
pub fn line_index(line: Line) -> usize
    ensures value { result ≡ index_of_line line.call line.side }
    ensures within { result < LINE_INDICES }
{
    4 * line.call as usize + number_of(line.side)
}
