//! The octets of one period of a drilled call.

ghost use Rattle.std.specs.Prelude.{◌≡◌, ℕ, ◌+◌, ◌<◌, ◌≤◌};
ghost use Rattle.farm_drill.specs.Draws.{draw_state, is_loud, first_draw, first_loud_draw};
ghost use Rattle.farm_drill.specs.Uplink.{kind_drawn, class_drawn, field_drawn, up_octets};
ghost use Rattle.farm_drill.specs.Lines.{pcm_octets};

use crate::draws::Generator;
use crate::frames::{bits, octets};
use trau_frame::{Class, Kind, UpFrame};

// The octet that a silent line carries.
const IDLE_OCTET: u8 = 0xD5;

// The kind of a frame, by the first draw of its period.
fn kind(choice: u8) -> Kind
    ensures { result ≡ kind_drawn choice }
{
    if choice < 244 {
        Kind::Speech
    } else {
        Kind::Idle
    }
}

// The class of its contents, by the same draw.
fn class(choice: u8) -> Class
    ensures { result ≡ class_drawn choice }
{
    match choice {
        0..=199 => Class::Good,
        200..=219 => Class::Sid,
        220..=229 => Class::InvalidSid,
        _ => Class::Unusable,
    }
}

// The alignment field, by the last draw for the uplink: mostly it asks for nothing.
fn field(choice: u8) -> u8
    ensures value { result ≡ field_drawn choice }
    ensures six_bits { result ≤ 63 }
{
    match choice {
        0 => 39,
        1 => 63,
        _ => 0,
    }
}

/// The uplink's octets of a period. The generator is at the period's first draw, and takes 262 draws.
pub fn uplink(generator: &mut Generator, period: u32) -> [u8; 40]
    ensures now { (seed call : ℕ) → generator.old.x ≡ draw_state seed call (first_draw period) →
        generator.new.x ≡ draw_state seed call (first_loud_draw period) }
    ensures octets { (seed call : ℕ) → generator.old.x ≡ draw_state seed call (first_draw period) →
        result ≡ up_octets seed call period }
{
    let choice = generator.draw();
    let data = generator.bits();
    let ask = generator.draw();
    if choice >= 250 {
        return [0; 40];
    }
    let frame = UpFrame {
        kind: kind(choice),
        class: class(choice),
        taf: period % 24 == 23,
        dtxd: true,
        align: field(ask),
        d: data,
    };
    octets(&bits(&frame))
}

/// The octets of a period from the exchange. The generator is after the draws for the uplink. If the line is loud, it
/// takes 160 draws.
pub fn pcm(generator: &mut Generator, period: u32) -> [u8; 160]
    ensures now { (seed call : ℕ) → generator.old.x ≡ draw_state seed call (first_loud_draw period) →
        generator.new.x ≡ draw_state seed call (first_draw (period + 1)) }
    ensures octets { (seed call : ℕ) → generator.old.x ≡ draw_state seed call (first_loud_draw period) →
        result ≡ pcm_octets seed call period }
{
    let mut octets = [IDLE_OCTET; 160];
    if period / 32 % 2 == 1 {
        generator.fill(&mut octets);
    }
    octets
}
