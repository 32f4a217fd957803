//! The substitution of lost frames, which fades.

use crate::rows::assert_row;
use crate::rx_handler_tests::loud;
use rx_subst::lost_frame;
use trau_num::Draw;
use trau_params::{Params, silence};

// The first draws of a source that starts at 7, computed by hand, and maxima lower by 4.
fn is_second(p: &Params) -> bool {
    p.mc == [3, 0, 1, 0] && p.xmaxc == [16; 4]
}

#[test]
fn a_lost_frame_fades(rt: HostRuntime) {
    let good = loud();
    let mut draw = Draw { r: 7 };
    assert_row(
        &rt,
        1,
        lost_frame(&good, 1, &mut draw) == good && draw.r == 7,
    );
    assert_row(&rt, 2, is_second(&lost_frame(&good, 2, &mut draw)));
    assert_row(&rt, 6, lost_frame(&good, 6, &mut draw).xmaxc == [0; 4]);
    assert_row(&rt, 17, lost_frame(&good, 17, &mut draw) == silence());
}
