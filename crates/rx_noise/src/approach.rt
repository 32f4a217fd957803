//! The steps from one silence descriptor to the next.

ghost use Rattle.std.specs.Prelude.{◌≡◌, ◌≤◌, ◌<◌, ℕ};
ghost use Rattle.trau_params.specs.Fields.{fields_of};
ghost use Rattle.trau_params.specs.Widths.{FitLarc, FitWidth, xmaxc_width};
ghost use Rattle.rx_noise.specs.Mix.{approach_steps, mixture, mixtures, mix_of};

use trau_params::Params;

/// In how many steps noise approaches a silence descriptor, one in each period (this project's profile).
pub const APPROACH_STEPS: u8 = 8;

// One code after `i` of the steps. It is below each limit that both codes are below.
fn code(old: u8, new: u8, i: u8) -> u8
    requires steps { i ≤ approach_steps }
    ensures value { result ≡ mixture i old new }
    ensures fits { (n : ℕ) → old < n → new < n → result < n }
{
    let sum = u16::from(old) * u16::from(APPROACH_STEPS - i) + u16::from(new) * u16::from(i);
    (sum / u16::from(APPROACH_STEPS)) as u8
}

// The ratios after `i` of the steps.
fn ratios(old: &[u8; 8], new: &[u8; 8], i: u8) -> [u8; 8]
    requires old { FitLarc old.now }
    requires new { FitLarc new.now }
    requires steps { i ≤ approach_steps }
    ensures value { result ≡ mixtures i old.now new.now }
    ensures fit { FitLarc result }
{
    let mut larc = [0; 8];
    for j in 0..8 {
        larc[j] = code(old[j], new[j], i);
    }
    larc
}

// The block maxima after `i` of the steps.
fn maxima(old: &[u8; 4], new: &[u8; 4], i: u8) -> [u8; 4]
    requires old { FitWidth xmaxc_width old.now }
    requires new { FitWidth xmaxc_width new.now }
    requires steps { i ≤ approach_steps }
    ensures value { result ≡ mixtures i old.now new.now }
    ensures fit { FitWidth xmaxc_width result }
{
    let mut xmaxc = [0; 4];
    for j in 0..4 {
        xmaxc[j] = code(old[j], new[j], i);
    }
    xmaxc
}

/// The silence descriptor after `i` of the steps, 1 to APPROACH_STEPS, from `old` to `new`: each code LARc and xmaxc is
/// `(old * (APPROACH_STEPS - i) + new * i) / APPROACH_STEPS`, rounded down; all else is that of `new`.
#[tactic(auto, unfolding(crate::specs::Mix::mix_of))]
pub fn mix(old: &Params, new: &Params, i: u8) -> Params
    requires low { 1 ≤ i }
    requires high { i ≤ approach_steps }
    ensures { fields_of result ≡ mix_of (fields_of old.now) (fields_of new.now) i }
{
    let larc = ratios(&old.larc, &new.larc, i);
    let xmaxc = maxima(&old.xmaxc, &new.xmaxc, i);
    Params::new(larc, new.nc, new.bc, new.mc, xmaxc, new.xmc)
}
