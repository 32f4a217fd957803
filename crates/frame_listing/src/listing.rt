//! The listing as a block machine.
ghost use Rattle.frame_listing.specs.Machine.{ListingStands};

use crate::text::write_line;
use arrayvec::ArrayString;
use block_lines::{BlockMachine, Shape, left_line};
use frame_sync::FrameSync;
use trau_io::Side;

/// The block machine of `frames`: the search after all periods so far, the number of its yields, and the text for the
/// last period.
#[derive(Drop)]
pub struct Listing {
    sync: FrameSync,
    yields: u32,
    text: ArrayString<64>,
}

impl Listing {
    ghost use Rattle.std.specs.Prelude.{[]};

    /// A listing before the first period.
    pub fn new() -> Listing
        ensures { ListingStands result [] }
    {
        Listing {
            sync: FrameSync::new(),
            yields: 0,
            text: ArrayString::new(),
        }
    }
}

impl BlockMachine for Listing {
    ghost use Rattle.std.specs.Prelude.{[]};
    ghost use Rattle.frame_listing.specs.Machine.{frames_machine, ListingStands};

    ghost about = { frames_machine };

    ghost stands = { ListingStands };

    ghost holds = { λ _ _. [] };

    ghost says = { λ listing. listing.text.bytes };

    fn shape(&self) -> Shape {
        Shape {
            octets: 40,
            from: Side::Up,
            lines: 0,
            to: Side::Down,
        }
    }

    // Inlined into the loop, which knows the length of a whole block.
    #[inline(always)]
    fn make(&mut self, block: &[u8]) -> Option<usize> {
        self.text.clear();
        if block.len() < 40 {
            return Some(0);
        }
        let period = block.as_array().unwrap();
        if let Some(found) = &self.sync.feed(period) {
            self.yields += 1;
            write_line(found, &mut self.text);
        }
        Some(0)
    }

    // It writes to no line.
    fn held(&self, _line: u32) -> &[u8] {
        &[]
    }

    fn text(&self) -> &str {
        self.text.as_str()
    }

    fn done_text(&self, _blocks: u32, left: u32) -> ArrayString<64> {
        left_line("frames ", u64::from(self.yields), left)
    }

    // No period is refused.
    fn refused_text(&self, _blocks: u32) -> ArrayString<64> {
        ArrayString::new()
    }
}
