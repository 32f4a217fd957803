//! The octets of a period, each as far as it came.

ghost use Rattle.std.specs.Prelude.{◌≡◌, ◌+◌, ◌≤◌, ◌<◌, ◌↔◌, ℕ, length, slice_index, slice_index_or, IsTrue, Some, None, true, false};
ghost use Rattle.rtp_buffer.specs.declared.octet.Octet.TheVariants.{Missing};
ghost use Rattle.rtp_buffer.specs.Octets.{with_octet, came, after_taking, after_leaving_out, heard, held, has_come};

/// What is known of an octet.
#[derive(Clone, Copy)]
pub enum Octet {
    /// It didn't come.
    Missing,
    /// It came, and waits.
    Held(u8),
    /// It was played.
    Played,
}

impl Octet {
    // How it stands once an octet came for it.
    fn or_held(self, octet: u8) -> Octet
        ensures { result ≡ with_octet self (Some octet) }
    {
        match self {
            Octet::Missing => Octet::Held(octet),
            other => other,
        }
    }

    // What is played of it.
    fn heard(self, filler: u8) -> u8
        ensures { result ≡ heard self filler }
    {
        match self {
            Octet::Held(octet) => octet,
            _ => filler,
        }
    }

    // How it stands once it was played.
    fn taken(self) -> Octet
        ensures { result ≡ after_taking self }
    {
        match self {
            Octet::Held(_) => Octet::Played,
            other => other,
        }
    }

    // How it stands once what waits is left out.
    fn left_out(self) -> Octet
        ensures { result ≡ after_leaving_out self }
    {
        match self {
            Octet::Held(_) => Octet::Missing,
            other => other,
        }
    }
}

// Takes octets of a period from one of its places on, where none came.
pub(crate) fn put<const N: usize>(row: &mut [Octet; N], part: usize, octets: &[u8])
    requires { part + length octets.now ≤ N }
    ensures { (k : ℕ) → slice_index_or row.new k Missing ≡ with_octet (slice_index_or row.old k Missing) (came part octets.now (length octets.now) k) }
{
    for n in 0..octets.len() {
        row[part + n] = row[part + n].or_held(octets[n]);
    }
}

// A period of which nothing came.
pub(crate) fn fill<const N: usize>(filler: u8) -> [u8; N]
    ensures { (k : ℕ) → k < N → slice_index result k ≡ filler }
{
    [filler; N]
}

// What is played of a period: the octets that wait, and the filler for others.
pub(crate) fn take<const N: usize>(row: &mut [Octet; N], filler: u8) -> [u8; N]
    ensures heard { (k : ℕ) → k < N → slice_index result k ≡ heard (slice_index_or row.old k Missing) filler }
    ensures row { (k : ℕ) → slice_index_or row.new k Missing ≡ after_taking (slice_index_or row.old k Missing) }
{
    let mut period = [filler; N];
    for n in 0..N {
        period[n] = row[n].heard(filler);
        row[n] = row[n].taken();
    }
    period
}

// What would be played of a period.
pub(crate) fn look<const N: usize>(row: &[Octet; N], filler: u8) -> [u8; N]
    ensures { (k : ℕ) → k < N → slice_index result k ≡ heard (slice_index_or row.now k Missing) filler }
{
    let mut period = [filler; N];
    for n in 0..N {
        period[n] = row[n].heard(filler);
    }
    period
}

// Leaves out what waits.
pub(crate) fn leave_out<const N: usize>(row: &mut [Octet; N])
    ensures { (k : ℕ) → slice_index_or row.new k Missing ≡ after_leaving_out (slice_index_or row.old k Missing) }
{
    for n in 0..N {
        row[n] = row[n].left_out();
    }
}

// Whether so many octets came, from a place on.
pub(crate) fn have_come<const N: usize>(row: &[Octet; N], part: usize, count: usize) -> bool
    requires { part + count ≤ N }
    ensures yes { result ≡ true → (k : ℕ) → part ≤ k → k < part + count → has_come (slice_index_or row.now k Missing) ≡ true }
    ensures no { result ≡ false → (k : ℕ) × (part ≤ k) × (k < part + count) × (has_come (slice_index_or row.now k Missing) ≡ false) }
{
    for n in part..part + count {
        if let Octet::Missing = row[n] {
            return false;
        }
    }
    true
}

// Whether an octet waits.
pub(crate) fn some_wait<const N: usize>(row: &[Octet; N]) -> bool
    ensures yes { result ≡ true → (k : ℕ) × (octet : ℕ) × (held (slice_index_or row.now k Missing) ≡ Some octet) }
    ensures no { result ≡ false → (k : ℕ) → held (slice_index_or row.now k Missing) ≡ None }
{
    for n in 0..N {
        if let Octet::Held(_) = row[n] {
            return true;
        }
    }
    false
}
