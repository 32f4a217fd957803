//! Saturating arithmetic at the ends of its ranges, and the random source.

use crate::rows::assert_row;
use trau_num::{Draw, abs16, add, div_q15, l_add, l_mult, l_sub, mult, mult_r, norm, shl16, sub};

#[test]
fn meets_the_ends(rt: HostRuntime) {
    let products = [mult(-32768, -32768), mult_r(-32768, -32768)];
    let words = [abs16(-32768), add(32767, 1), sub(-32768, 1), shl16(-3, 2)];
    let quotients = [div_q15(5, 5), div_q15(0, 9), div_q15(0, 0)];
    let long_words = [l_add(2147483647, 1), l_sub(-5, 3), l_mult(3, -4)];
    assert_row(&rt, 1, products == [32767; 2]);
    assert_row(&rt, 2, words == [32767, 32767, -32768, -12]);
    assert_row(&rt, 3, quotients == [32767, 0, 0]);
    assert_row(&rt, 4, long_words == [2147483647, -8, -24]);
    assert_row(&rt, 5, norm(1) == 30);
    assert_row(&rt, 6, Draw { r: 7 }.next(4) == 3);
}
