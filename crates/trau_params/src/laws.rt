//! Laws of the parameters: frames of parameters and lists of 260 bits correspond one to one.

ghost use Rattle.std.specs.Prelude.{◌≡◌};
ghost use Rattle.trau_params.specs.Bits260.{bits260_of, SameFields};
ghost use Rattle.trau_params.specs.Places.{FieldsStand};
ghost use Rattle.trau_params.specs.Shape.{HasShape};

use crate::params::Params;

/// The arrays of a frame have their lengths: 8 ratios, each other parameter of 4 blocks, 13 pulses of a block (GSM
/// 06.10, table 1.1).
pub fn has_shape(p: Params)
    ensures { HasShape p }
{
    // The length of a row of pulses is known only after the row is read.
    let _first = p.block(0);
    let _second = p.block(1);
    let _third = p.block(2);
    let _fourth = p.block(3);
}

/// Frames with the same 260 bits have the same fields.
#[tactic(auto, using(crate::proofs::OneFrame::same_fields))]
pub fn one_frame(p: Params, q: Params)
    requires { bits260_of p ≡ bits260_of q }
    ensures { SameFields p q }
{
    crate::laws::has_shape(p);
    crate::laws::has_shape(q);
}

/// Writes the bits of a frame and reads them: the result is the same frame.
pub fn rewritten(frame: &Params) -> Params
    ensures { SameFields frame.now result }
{
    let mut bits = [0; 260];
    frame.to_bits(&mut bits);
    let again = Params::from_bits(&bits);
    crate::laws::one_frame(*frame, again);
    again
}

/// The offset of each field among the 260 bits is the sum of the widths of the fields before it.
#[tactic(auto, using(crate::proofs::FieldPlaces::fields_stand))]
pub fn fields_stand(p: Params)
    ensures { FieldsStand p (bits260_of p) }
{
    crate::laws::has_shape(p);
}
