//! Preprocessing: silence, steps, and the state between frames.

use crate::rows::assert_row;
use fr_pre::PreState;

// The first three samples of a frame and its last, preprocessed.
fn preprocess(state: &mut PreState, x: &[i16; 160]) -> [i16; 4] {
    let mut s = [0; 160];
    state.preprocess(x, &mut s);
    [s[0], s[1], s[2], s[159]]
}

// Whether a state has these words.
fn has_words(state: &PreState, z1: i16, l_z2: i32, mp: i16) -> bool {
    state.z1 == z1 && state.l_z2 == l_z2 && state.mp == mp
}

#[test]
fn silence_stays_silent(rt: HostRuntime) {
    let mut state = PreState::home();
    let mut s = [7; 160];
    state.preprocess(&[0; 160], &mut s);
    assert_row(&rt, 1, s == [0; 160]);
    assert_row(&rt, 2, state == PreState::home());
}

// The numbers were computed independently of this crate, from the text of GSM 06.10.
#[test]
fn a_constant_fades(rt: HostRuntime) {
    let mut state = PreState::home();
    let first = preprocess(&mut state, &[8000; 160]);
    let second = preprocess(&mut state, &[8000; 160]);
    assert_row(
        &rt,
        1,
        [first, second] == [[4000, 556, 555, 475], [473, 474, 473, 403]],
    );
    assert_row(&rt, 2, has_words(&state, 4000, 95042714, 2900));
}

// The greatest and the least sample in turn.
fn ends() -> [i16; 160] {
    let mut x = [-32760; 160];
    for k in 0..80 {
        x[2 * k] = 32760;
    }
    x
}

// The numbers were computed in the same way.
#[test]
fn meets_the_ends(rt: HostRuntime) {
    let mut state = PreState::home();
    assert_row(
        &rt,
        1,
        preprocess(&mut state, &ends()) == [16380, -30483, 30480, -30482],
    );
    assert_row(&rt, 2, has_words(&state, -16380, -537240629, -16395));
}
