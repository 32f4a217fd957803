//! Numbers of five and of seven octets, the most significant first, and the digits of numbers.

ghost use Rattle.std.specs.Prelude.{◌≡◌, ◌+◌, ◌*◌, ◌/◌, ◌^◌, ◌<◌, ◌≤◌, replicate, slice_index};
ghost use Rattle.gsm_frame.specs.Packed.{packed};

/// A number without its lowest digit to the base `size`, and that digit.
#[inline(always)]
pub(crate) fn split(number: u64, size: u64) -> (u64, u8)
    requires at_least { 1 ≤ size }
    requires at_most { size ≤ 256 }
    ensures whole { result.0 * size + result.1 ≡ number }
    ensures digit { result.1 < size }
{
    (number / size, (number % size) as u8)
}

/// The number of five octets.
#[tactic(auto, unfolding(crate::specs::Packed::packed_from))]
pub(crate) fn number_of_five(octets: &[u8; 5]) -> u64
    ensures value { result ≡ packed 0 (replicate 5 8) (λ i. slice_index octets.now i) }
    ensures bound { result < 2 ^ 40 }
{
    let n = u64::from(octets[0]);
    let n = n * 256 + u64::from(octets[1]);
    let n = n * 256 + u64::from(octets[2]);
    let n = n * 256 + u64::from(octets[3]);
    n * 256 + u64::from(octets[4])
}

/// The number of seven octets.
#[tactic(auto, unfolding(crate::specs::Packed::packed_from))]
pub(crate) fn number_of_seven(octets: &[u8; 7]) -> u64
    ensures value { result ≡ packed 0 (replicate 7 8) (λ i. slice_index octets.now i) }
    ensures bound { result < 2 ^ 56 }
{
    let n = u64::from(octets[0]);
    let n = n * 256 + u64::from(octets[1]);
    let n = n * 256 + u64::from(octets[2]);
    let n = n * 256 + u64::from(octets[3]);
    let n = n * 256 + u64::from(octets[4]);
    let n = n * 256 + u64::from(octets[5]);
    n * 256 + u64::from(octets[6])
}

/// The five octets of a number.
#[tactic(auto, unfolding(crate::specs::Packed::packed_from))]
pub(crate) fn five_octets(number: u64) -> [u8; 5]
    requires { number < 2 ^ 40 }
    ensures first { slice_index result 0 ≡ number / 2 ^ 32 }
    ensures value { packed 0 (replicate 5 8) (λ i. slice_index result i) ≡ number }
{
    let (rest, fifth) = split(number, 256);
    let (rest, fourth) = split(rest, 256);
    let (rest, third) = split(rest, 256);
    let (first, second) = split(rest, 256);
    [first as u8, second, third, fourth, fifth]
}

/// The seven octets of a number.
#[tactic(auto, unfolding(crate::specs::Packed::packed_from))]
pub(crate) fn seven_octets(number: u64) -> [u8; 7]
    requires { number < 2 ^ 56 }
    ensures { packed 0 (replicate 7 8) (λ i. slice_index result i) ≡ number }
{
    let (rest, seventh) = split(number, 256);
    let (rest, sixth) = split(rest, 256);
    let (rest, fifth) = split(rest, 256);
    let (rest, fourth) = split(rest, 256);
    let (rest, third) = split(rest, 256);
    let (first, second) = split(rest, 256);
    [first as u8, second, third, fourth, fifth, sixth, seventh]
}
