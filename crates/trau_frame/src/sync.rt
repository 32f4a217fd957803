//! The sync pattern of a frame (GSM 08.60): sixteen zeros in its octets 0 and 1, which are its first row, and a one at
//! the beginning of each of the other nineteen rows of 16 bits.

ghost use Rattle.std.specs.Prelude.{◌≡◌, ℕ, ◌+◌, ◌*◌, ◌<◌, ◌≤◌, ◌↔◌, IsTrue, slice_index};
ghost use Rattle.trau_bits.specs.Bits.{AreBits};
ghost use Rattle.trau_frame.specs.Frame.{Synced};

/// Whether the frame at place `o` has its sixteen sync zeros: octets 0 and 1 (GSM 08.60).
pub fn zeros_match<const N: usize>(bits: &[u8; N], o: usize) -> bool
    requires { o + 15 < N }
    ensures { IsTrue result ↔ ((i : ℕ) → i < 16 → slice_index bits.now (o + i) ≡ 0) }
{
    for i in 0..16 {
        if bits[o + i] != 0 {
            return false;
        }
    }
    true
}

/// Whether the frame at place `o` has its nineteen sync ones: one at the beginning of each row of 16 bits after the
/// first (GSM 08.60).
pub fn ones_match<const N: usize>(bits: &[u8; N], o: usize) -> bool
    requires { o + 304 < N }
    ensures { IsTrue result ↔ ((row : ℕ) → 1 ≤ row → row < 20 → slice_index bits.now (o + 16 * row) ≡ 1) }
{
    for row in 1..20 {
        if bits[o + 16 * row] != 1 {
            return false;
        }
    }
    true
}

/// Whether the 320 bits carry the 35 sync bits of a frame (GSM 08.60).
pub fn sync_matches(bits: &[u8; 320]) -> bool
    requires { AreBits bits.now }
    ensures { IsTrue result ↔ Synced bits.now }
{
    zeros_match(bits, 0) && ones_match(bits, 0)
}
