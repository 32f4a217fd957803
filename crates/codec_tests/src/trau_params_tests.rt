//! The 260 bits of the greatest and of the least parameters.

use crate::fr_decoder_tests::greatest;
use crate::rows::assert_row;
use trau_params::Params;

// Whether each of the 260 bits of parameters is `bit`.
fn are_bits(params: &Params, bit: u8) -> bool {
    let mut bits = [2; 260];
    params.to_bits(&mut bits);
    bits == [bit; 260]
}

#[test]
fn fields_at_their_ends_are_the_same_bits(rt: HostRuntime) {
    let least = Params::new([0; 8], [0; 4], [0; 4], [0; 4], [0; 4], [[0; 13]; 4]);
    assert_row(&rt, 0, are_bits(&least, 0));
    assert_row(&rt, 1, are_bits(&greatest(127), 1));
}
