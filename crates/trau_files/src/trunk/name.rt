//! The names of the lines' files.
ghost use Rattle.std.specs.Prelude.{◌≡◌};
ghost use Rattle.trau_files.specs.Files.{file_name};

use arrayvec::ArrayString;
use itoa::Buffer;
use trau_io::Line;

/// The name of a line's file, as `7.up`. It doesn't allocate.
pub fn name_of(line: Line) -> ArrayString<48>
    ensures { result.bytes ≡ file_name line.call line.side }
{
    let mut digits = Buffer::new();
    let mut name = ArrayString::new();
    name.push_str(digits.format(line.call));
    name.push_str(".");
    name.push_str(line.side.word());
    name
}
