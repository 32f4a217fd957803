//! What a block machine is.
ghost use Rattle.std.specs.Prelude.{◌≡◌, ◌<◌, ◌≤◌, ℕ, List, [], length, IfSome, IsNone};
ghost use Rattle.block_lines.specs.Machines.{IsLawful, IsNext, Machine};
ghost use Rattle.block_lines.specs.Step.{HasRoom, Makes};

use arrayvec::ArrayString;
use trau_io::Side;

/// The lines of a machine, and the length of its blocks.
#[derive(Clone, Copy)]
pub struct Shape {
    /// Octets of a block, 1 to 160.
    pub octets: usize,
    /// The side of the call's line that it reads.
    pub from: Side,
    /// How many lines it writes, at most 4: those of its call and of the next ones.
    pub lines: u32,
    /// Their side, not that of the line that it reads.
    pub to: Side,
}

/// A command that processes the blocks of a line one by one.
pub trait BlockMachine {
    /// What it makes of all blocks.
    ghost about: { Machine };

    /// It has taken these blocks.
    ghost stands: { Self → List (List ℕ) → Type 0 };

    /// The octets that it holds for line j.
    ghost holds: { Self → ℕ → List ℕ };

    /// The text for what it took last.
    ghost says: { Self → List ℕ };

    /// Its lines and the length of its blocks.
    fn shape(&self) -> Shape
        ensures value { result ≡ about.shape }
        ensures law { IsLawful about };

    /// Takes the next block, or the octets left at the line's end, and makes what goes out for that: the text, and for
    /// each line the first of the octets that it then holds for it, as many as the number returned. None if the block
    /// is refused.
    fn make(&mut self, block: &[u8]) -> Option<usize>
        requires bound { length block.now ≤ about.shape.octets }
        requires room { HasRoom (stands self.old) }
        ensures makes { IfSome result (λ count. Makes about (stands self.old) (stands self.new) block.now (holds self.new) (says self.new) count) }
        ensures refuses { IsNone result → IsNext about block.now → ⊥ };

    /// The octets that it holds for a line, counted from 0.
    fn held(&self, line: u32) -> &[u8]
        requires { line < 4 }
        ensures { result.now ≡ holds self.now line };

    /// The text for what it took last.
    fn text(&self) -> &str
        ensures { result.now ≡ says self.now };

    /// The last text at the line's end, after this number of blocks and with this number of octets left.
    fn done_text(&self, blocks: u32, left: u32) -> ArrayString<64>
        ensures { (all : List (List ℕ)) (last : List ℕ) → stands self.now all → blocks ≡ length all → left ≡ length last →
            result.bytes ≡ about.done_text all last };

    /// The last text at a block that is refused, after this number of blocks.
    fn refused_text(&self, blocks: u32) -> ArrayString<64>
        ensures { result.bytes ≡ about.refused_text blocks };
}
