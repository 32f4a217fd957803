//! Whose packets are taken.

ghost use Rattle.std.specs.Prelude.{◌≡◌};
ghost use Rattle.rtp_stream.specs.Sources.{sources_home, hearing, brings_the_next, begun, candidate_after, judged_other, judged};

// Ticks for which a source on probation keeps its place.
const PROBATION: u32 = 5;

/// A source on probation.
#[derive(Clone, Copy)]
pub struct Candidate {
    /// The source (SSRC).
    pub source: u32,
    /// The sequence number that it must bring next.
    pub number: u16,
    /// The tick at which its probation began.
    pub since: u32,
}

impl Candidate {
    // Its probation begins with a packet of this number.
    fn begin(source: u32, number: u16, tick: u32) -> Candidate
        ensures { result ≡ begun source number tick }
    {
        Candidate {
            source,
            number: number.wrapping_add(1),
            since: tick,
        }
    }
}

/// The source that is heard, and the one on probation.
#[derive(Clone, Copy)]
pub struct Sources {
    /// The source that is heard, once there was one.
    pub heard: Option<u32>,
    /// Another one, which brought a packet.
    pub candidate: Option<Candidate>,
}

/// What a packet's source is.
#[derive(Clone, Copy)]
pub enum Verdict {
    /// The one that is heard.
    Heard,
    /// It is heard from this packet on.
    Begins,
    /// It isn't heard yet.
    OnProbation,
}

// Whether the candidate is this source, and brings the number that it must.
fn brings_the_next(candidate: Option<Candidate>, source: u32, number: u16) -> bool
    ensures { result ≡ brings_the_next candidate source number }
{
    match candidate {
        None => false,
        Some(candidate) => candidate.source == source && candidate.number == number,
    }
}

// Who is on probation after a packet of a source that isn't heard.
fn candidate_after(candidate: Option<Candidate>, source: u32, number: u16, tick: u32) -> Candidate
    ensures { result ≡ candidate_after candidate source number tick }
{
    match candidate {
        Some(candidate) if candidate.source == source => Candidate {
            number: number.wrapping_add(1),
            ..candidate
        },
        Some(candidate) if tick.wrapping_sub(candidate.since) < PROBATION => candidate,
        _ => Candidate::begin(source, number, tick),
    }
}

impl Sources {
    /// No source is heard yet.
    pub fn home() -> Sources
        ensures { result ≡ sources_home }
    {
        Sources {
            heard: None,
            candidate: None,
        }
    }

    // Another source than the one that is heard brings a packet.
    fn judge_other(&mut self, source: u32, number: u16, tick: u32, is_still: bool) -> Verdict
        ensures value { (self.new, result) ≡ judged_other self.old source number tick is_still }
    {
        if brings_the_next(self.candidate, source, number) && is_still {
            *self = Sources {
                heard: Some(source),
                candidate: None,
            };
            return Verdict::Begins;
        }
        self.candidate = Some(candidate_after(self.candidate, source, number, tick));
        Verdict::OnProbation
    }

    /// Judges a packet by its source and sequence number. `is_still`: the source that is heard has brought nothing for
    /// a while, and all that it brought is played.
    pub fn judge(&mut self, source: u32, number: u16, tick: u32, is_still: bool) -> Verdict
        ensures value { (self.new, result) ≡ judged self.old source number tick is_still }
    {
        match self.heard {
            None => {
                *self = Sources {
                    heard: Some(source),
                    candidate: None,
                };
                Verdict::Begins
            }
            Some(present) if present == source => Verdict::Heard,
            Some(_) => self.judge_other(source, number, tick, is_still),
        }
    }
}
