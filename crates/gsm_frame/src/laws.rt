//! Laws of the 33 octets: one frame for given octets, and one list of octets for a frame.

ghost use Rattle.std.specs.Prelude.{◌≡◌, ◌/◌, ◌↔◌, ◌<◌, ℕ, List, length, All, IfSome, IsSome, slice_index};
ghost use Rattle.trau_params.specs.Bits260.{SameFields};
ghost use Rattle.trau_params.specs.Fields.{Fields, fields_of};
ghost use Rattle.gsm_frame.specs.Packed.{magic, Carries};

use crate::frame::{pack, unpack};
use trau_params::Params;

/// Octets carry at most one frame.
pub fn one_frame(one: Params, other: Params)
    ensures { (octets : List ℕ) → Carries octets (fields_of one) → Carries octets (fields_of other) → SameFields one other }
{
    trau_params::laws::has_shape(one);
    trau_params::laws::has_shape(other);
}

/// At most one list of 33 octets carries a frame.
pub fn one_packing()
    ensures { (f : Fields) (xs ys : List ℕ) → length xs ≡ 33 → length ys ≡ 33 → All (λ x. x < 256) xs → All (λ y. y < 256) ys →
        Carries xs f → Carries ys f → xs ≡ ys }
{}

// The entries of the array are octets, for proofs. This is known only after the array is passed to a function.
fn are_octets(octets: &[u8; 33])
    ensures { (k : ℕ) → slice_index octets.now k < 256 }
{
    let _frame = unpack(octets);
}

/// Packs and unpacks a frame: the result is the same frame.
pub fn packed_unpacks_again(params: &Params) -> Option<Params>
    ensures variant { IsSome result }
    ensures same { IfSome result (λ again. SameFields params.now again) }
{
    let octets = pack(params);
    let again = unpack(&octets)?;
    crate::laws::one_frame(*params, again);
    Some(again)
}

/// Unpacks and packs octets that begin with the four bits: the result is the same octets.
pub fn unpacked_packs_again(octets: &[u8; 33]) -> Option<[u8; 33]>
    ensures variant { IsSome result ↔ (slice_index octets.now 0 / 16 ≡ magic) }
    ensures same { IfSome result (λ again. again ≡ octets.now) }
{
    let again = pack(&unpack(octets)?);
    crate::laws::are_octets(&again);
    crate::laws::one_packing();
    Some(again)
}
