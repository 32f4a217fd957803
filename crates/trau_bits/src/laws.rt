//! Laws of the bits of octets, each the contract of a function that does nothing.

ghost use Rattle.std.specs.Prelude.{◌≡◌, ◌*◌, ◌<◌, ℕ, List, length, All};
ghost use Rattle.trau_bits.specs.Bits.{bits_of, octets_of, AreBits};

/// Unpacking octets and packing the bits gives the same octets.
pub fn unpacked_packs_again()
    ensures { (bytes : List ℕ) → All (λ octet. octet < 256) bytes → octets_of (bits_of bytes) ≡ bytes }
{}

/// Packing bits and unpacking the octets gives the same bits.
pub fn packed_unpacks_again()
    ensures { (bits : List ℕ) (n : ℕ) → length bits ≡ 8 * n → AreBits bits → bits_of (octets_of bits) ≡ bits }
{}
