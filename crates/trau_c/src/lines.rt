//! Frames of 33 octets in TRAU frames of 40 octets (GSM 08.60), and back.

ghost use Rattle.std.specs.Prelude.{◌≡◌, ◌↔◌, IsTrue, false};
ghost use Rattle.trau_bits.specs.Bits.{bits_of};
ghost use Rattle.trau_frame.specs.Frame.{Synced};
ghost use Rattle.fr_sides.specs.Octets.{HeardIn};
ghost use Rattle.fr_sides.specs.Uplink.{heard_in_uplink, WrittenUplink, ReadUplink};
ghost use Rattle.fr_sides.specs.Downlink.{WrittenDownlink, ReadDownlink};

use fr_sides::{read_downlink, read_uplink, write_downlink, write_uplink};

/// Writes the 40 octets of the uplink frame for a frame of 33 octets: kind 0 is good speech, 1 a silence descriptor, 3
/// an idle frame, any other unusable speech, also octets that don't begin with the four bits 1101. TAF is `taf`, the
/// alignment field and DTXd are 0, spare and time bits are 1.
#[unsafe(no_mangle)]
pub extern "C" fn trau_fr_write_uplink(
    frame: &[u8; 33],
    kind: u32,
    taf: bool,
    octets: &mut [u8; 40],
)
    ensures bits { WrittenUplink frame.now kind taf octets.new }

    // A call hears in it what `trau_fr_receive` hears.
    ensures heard { HeardIn kind taf frame.now (heard_in_uplink (bits_of octets.new)) }
{
    *octets = write_uplink(frame, kind, taf);
}

/// Reads the uplink frame of 40 octets: its kind (0 speech, 1 a silence descriptor, 3 an idle frame, else 2), TAF, and
/// its 260 data bits as 33 octets. TAF is false in an invalid silence descriptor and in a frame of another pattern of
/// C1 to C5. If the octets don't carry the sync pattern, the result is false, and all stay unchanged.
#[unsafe(no_mangle)]
pub extern "C" fn trau_fr_read_uplink(
    octets: &[u8; 40],
    kind: &mut u32,
    taf: &mut bool,
    frame: &mut [u8; 33],
) -> bool
    ensures variant { IsTrue result ↔ Synced (bits_of octets.now) }
    ensures read { IsTrue result → ReadUplink octets.now kind.new taf.new frame.new }

    // With them, `trau_fr_receive` hears what a call hears in the 40 octets.
    ensures heard { IsTrue result → HeardIn kind.new taf.new frame.new (heard_in_uplink (bits_of octets.now)) }
    ensures refused_kind { result ≡ false → kind.new ≡ kind.old }
    ensures refused_taf { result ≡ false → taf.new ≡ taf.old }
    ensures refused_frame { result ≡ false → frame.new ≡ frame.old }
{
    match read_uplink(octets) {
        Some(up) => {
            *kind = up.kind;
            *taf = up.taf;
            let data = up.frame;
            *frame = data;
            true
        }
        None => false,
    }
}

/// Writes the 40 octets of the downlink frame for a frame of 33 octets: kind 0 is speech (SP 1), 1 a silence descriptor
/// (SP 0), any other an idle frame, also octets that don't begin with the four bits 1101. The alignment field is 0,
/// spare and time bits are 1.
#[unsafe(no_mangle)]
pub extern "C" fn trau_fr_write_downlink(frame: &[u8; 33], kind: u32, octets: &mut [u8; 40])
    ensures { WrittenDownlink frame.now kind octets.new }
{
    *octets = write_downlink(frame, kind);
}

/// Reads the downlink frame of 40 octets: its kind (0 speech, 1 a silence descriptor, 3 an idle frame, else 2), and its
/// 260 data bits as 33 octets. If the octets don't carry the sync pattern, the result is false, and both stay
/// unchanged.
#[unsafe(no_mangle)]
pub extern "C" fn trau_fr_read_downlink(
    octets: &[u8; 40],
    kind: &mut u32,
    frame: &mut [u8; 33],
) -> bool
    ensures variant { IsTrue result ↔ Synced (bits_of octets.now) }
    ensures read { IsTrue result → ReadDownlink octets.now kind.new frame.new }
    ensures refused_kind { result ≡ false → kind.new ≡ kind.old }
    ensures refused_frame { result ≡ false → frame.new ≡ frame.old }
{
    match read_downlink(octets) {
        Some(down) => {
            *kind = down.kind;
            let data = down.frame;
            *frame = data;
            true
        }
        None => false,
    }
}
