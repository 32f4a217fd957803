//! What came of the datagrams of a session, by reasons.

ghost use Rattle.std.specs.Prelude.{◌≡◌};
ghost use Rattle.rtp_session.specs.Counts.{no_counts};

/// Counts of datagrams, modulo 2 to the 32nd; those of periods are named.
#[derive(Clone, Copy)]
pub struct Counts {
    /// Those that are no packet.
    pub no_packet: u32,
    /// Those that seem to be RTCP on the same port.
    pub control: u32,
    /// Those of another payload type.
    pub other_type: u32,
    /// Those without a payload.
    pub empty: u32,
    /// Those whose payload isn't whole frames.
    pub odd_size: u32,
    /// Those of more than a second.
    pub too_long: u32,
    /// Those whose source isn't heard.
    pub on_probation: u32,
    /// Those of time that was given up.
    pub given_up: u32,
    /// Those that are far away.
    pub far: u32,
    /// Periods that came too late, or of which octets did.
    pub late: u32,
    /// Periods that came twice.
    pub doubled: u32,
    /// Sources that took over from another.
    pub new_sources: u32,
    /// Jumps of the time stamps.
    pub jumps: u32,
    /// Those of frames that don't begin where a period does.
    pub off_the_grid: u32,
    /// Periods that were left out, as the delay got shorter.
    pub slips_on: u32,
    /// Periods that were put in, as it got longer.
    pub slips_back: u32,
    /// Packets that were received from earlier sources.
    pub received_before: u32,
    /// Packets of theirs that are missing.
    pub missing_before: u32,
}

impl Counts {
    /// Nothing is counted yet.
    pub fn home() -> Counts
        ensures { result ≡ no_counts }
    {
        Counts {
            no_packet: 0,
            control: 0,
            other_type: 0,
            empty: 0,
            odd_size: 0,
            too_long: 0,
            on_probation: 0,
            given_up: 0,
            far: 0,
            late: 0,
            doubled: 0,
            new_sources: 0,
            jumps: 0,
            off_the_grid: 0,
            slips_on: 0,
            slips_back: 0,
            received_before: 0,
            missing_before: 0,
        }
    }
}
