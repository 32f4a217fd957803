//! The octets and the samples of a period of 20 ms. Each loop has the arithmetic of one law, so the compiler can
//! process several samples at once.

ghost use Rattle.std.specs.Prelude.{◌≡◌};
ghost use Rattle.trau_alaw.specs.declared.Law.{Law};
ghost use Rattle.trau_alaw.specs.Period.{expanded, compressed};

use crate::{Law, compress, expand, mulaw};

/// The 160 samples that the octets of a period stand for on a line with this law.
pub fn expand_all(law: Law, octets: &[u8; 160]) -> [i16; 160]
    ensures { result ≡ expanded law octets.now }
{
    match law {
        Law::A => expand_alaw(octets),
        Law::Mu => expand_mulaw(octets),
    }
}

/// Compresses the 160 samples of a period to the octets of a line with this law.
pub fn compress_all(law: Law, x: &[i16; 160], octets: &mut [u8; 160])
    ensures { octets.new ≡ compressed law x.now }
{
    match law {
        Law::A => compress_alaw(x, octets),
        Law::Mu => compress_mulaw(x, octets),
    }
}

fn expand_alaw(octets: &[u8; 160]) -> [i16; 160]
    ensures { result ≡ expanded Law.A octets.now }
{
    let mut x = [0; 160];
    for k in 0..160 {
        x[k] = expand(octets[k]);
    }
    x
}

fn expand_mulaw(octets: &[u8; 160]) -> [i16; 160]
    ensures { result ≡ expanded Law.Mu octets.now }
{
    let mut x = [0; 160];
    for k in 0..160 {
        x[k] = mulaw::expand(octets[k]);
    }
    x
}

fn compress_alaw(x: &[i16; 160], octets: &mut [u8; 160])
    ensures { octets.new ≡ compressed Law.A x.now }
{
    for k in 0..160 {
        octets[k] = compress(x[k]);
    }
}

fn compress_mulaw(x: &[i16; 160], octets: &mut [u8; 160])
    ensures { octets.new ≡ compressed Law.Mu x.now }
{
    for k in 0..160 {
        octets[k] = mulaw::compress(x[k]);
    }
}
