//! The rows of a frame: the places of its control and data bits, for reading and for writing.

ghost use Rattle.std.specs.Prelude.{◌≡◌, ℕ, ◌+◌, ◌*◌, ◌<◌, ◌≤◌, List};
ghost use Rattle.trau_bits.specs.Bits.{AreBits};
ghost use Rattle.trau_frame.specs.Role.{Control, bit_with};
ghost use Rattle.trau_frame.specs.Frame.{data_of, IsWritten, frame_bits};

// Bits in a row.
const ROW: usize = 16;
// Data bits in a row of data bits.
const ROW_DATA: usize = 15;
// Rows of data bits.
const DATA_ROWS: usize = 17;
// The first place of the first row of data bits.
const FIRST_ROW: usize = 32;
// The first place of the last row.
const LAST_ROW: usize = 304;

/// Control bit C`c` of a frame of either direction, C1 to C21 (GSM 08.60). C1 to C15 are in the second row, the others
/// in the last.
#[tactic(auto, unfolding(crate::specs::Role::place_of_role))]
pub fn control(bits: &[u8; 320], c: usize) -> u8
    requires bits { AreBits bits.now }
    requires low { 1 ≤ c }
    requires high { c ≤ 21 }
    ensures value { result ≡ bit_with bits.now (Control c) }
    ensures bit { result < 2 }
{
    if c <= 15 {
        bits[ROW + c]
    } else {
        bits[LAST_ROW + 6 + (c - 16)]
    }
}

/// Data bits D1 to D260.
pub fn data(bits: &[u8; 320]) -> [u8; 260]
    requires { AreBits bits.now }
    ensures value { result ≡ data_of bits.now }
    ensures are_bits { AreBits result }
{
    let mut d = [0; 260];
    for row in 0..DATA_ROWS {
        let place = FIRST_ROW + ROW * row + 1;
        d[ROW_DATA * row..ROW_DATA * row + ROW_DATA].copy_from_slice(
            &bits[place..place + ROW_DATA],
        );
    }
    d[255..].copy_from_slice(&bits[LAST_ROW + 1..LAST_ROW + 6]);
    d
}

// Writes the sync zeros, and the row of C1 to C15.
fn write_head(control: &[u8; 21], bits: &mut [u8; 320])
    ensures { (d : List ℕ) → IsWritten control.now d bits.new 32 }
{
    for i in 0..16 {
        bits[i] = 0;
    }
    bits[16] = 1;
    for c in 0..15 {
        bits[17 + c] = control[c];
    }
}

// Writes the fifteen data bits of a row.
fn write_row(d: &[u8; 260], row: usize, bits: &mut [u8; 320])
    requires { row < DATA_ROWS }
    ensures { (control : List ℕ) → IsWritten control d.now bits.old (32 + 16 * row + 1) →
        IsWritten control d.now bits.new (32 + 16 * row + 16) }
{
    let place = FIRST_ROW + ROW * row + 1;
    bits[place..place + ROW_DATA].copy_from_slice(&d[ROW_DATA * row..ROW_DATA * row + ROW_DATA]);
}

// Writes the rows of fifteen data bits.
fn write_data(d: &[u8; 260], bits: &mut [u8; 320])
    ensures { (control : List ℕ) → IsWritten control d.now bits.old 32 →
        IsWritten control d.now bits.new 304 }
{
    for row in 0..DATA_ROWS {
        bits[FIRST_ROW + ROW * row] = 1;
        write_row(d, row, bits);
    }
}

// Writes the last row: the last five data bits, C16 to C21, and the time bits.
fn write_tail(control: &[u8; 21], d: &[u8; 260], bits: &mut [u8; 320])
    ensures { IsWritten control.now d.now bits.old 304 → IsWritten control.now d.now bits.new 320 }
{
    bits[LAST_ROW] = 1;
    for n in 0..5 {
        bits[LAST_ROW + 1 + n] = d[255 + n];
    }
    for c in 0..6 {
        bits[LAST_ROW + 6 + c] = control[15 + c];
    }
    for t in 0..4 {
        bits[LAST_ROW + 12 + t] = 1;
    }
}

/// Writes a frame with these bits C1 to C21 and D1 to D260.
pub fn write_frame(control: &[u8; 21], d: &[u8; 260], bits: &mut [u8; 320])
    requires control { AreBits control.now }
    requires data_bits { AreBits d.now }
    ensures bits { bits.new ≡ frame_bits control.now d.now }
    ensures are_bits { AreBits bits.new }
{
    write_head(control, bits);
    write_data(d, bits);
    write_tail(control, d, bits);
}
