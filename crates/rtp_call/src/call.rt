//! A call, a datagram or a period at a time.

ghost use Rattle.std.specs.Prelude.{◌≡◌, ◌≢◌, ℕ, ℤ, Bool, true, None, IfSome, unwrap_or, List, [], ◌∷◌, replicate};
ghost use Rattle.trau_alaw.specs.declared.Law.{Law};
ghost use Rattle.trau_alaw.specs.Laws.{idle_of};
ghost use Rattle.fr_sides.specs.Memory.{receiver_memory, sender_memory};
ghost use Rattle.call_leg.specs.Periods.{CallPeriod};
ghost use Rattle.call_coders.specs.Replay.{CallStands, Replays, CanBeBridged, who_is, period_of, bridged_period, item_of};
ghost use Rattle.rtp_session.specs.Incoming.{IsAdmitted, IsUntouched, PlaysTheSame};
ghost use Rattle.rtp_session.specs.Datagram.{TakesDatagram};
ghost use Rattle.rtp_session.specs.Playing.{GivesUp};
ghost use Rattle.rtp_session.specs.Outgoing.{header_at, sent, gone_on, IsMedia, Carries};
ghost use Rattle.rtp_call.specs.Sending.{is_speech, is_sent, pause_after, station_after};
ghost use Rattle.rtp_call.specs.Call.{IsReady, BeginsCall, no_line_after, HearsStation, HearsExchange, RecordsInput, SpeaksToStation, SpeaksToExchange};

use crate::hearing::Hearing;
use crate::playing::{take_frame, take_line};
use crate::sending::send_frame;
use call_coders::{Coders, Input, Record, Spoken, bridged};
use rtp_session::{Incoming, Outcome, Outgoing, is_media};
use trau_alaw::{Law, idle_octet};

/// What a call begins with.
#[derive(Clone, Copy)]
pub struct Settings {
    /// The call's number.
    pub number: u16,
    /// The law of the octets from and to the exchange.
    pub law: Law,
    /// The ticks that the first packet of a side waits.
    pub depth: u32,
    /// Whether a first period without a good frame brings one of silence.
    pub prime: bool,
    /// The payload type of frames: 3, or a dynamic one (RFC 3551, section 6).
    pub gsm: u8,
    /// The payload type of octets by the law: 8 for A-law, 0 for mu-law, or a dynamic one.
    pub pcm: u8,
}

/// The datagrams of a period.
#[derive(Clone, Copy)]
#[repr(C)]
pub struct Datagrams {
    /// The one to the base station, if it is sent.
    pub gsm: [u8; 45],
    /// The one to the exchange.
    pub pcm: [u8; 172],
}

/// The records of the two calls of a bridge.
#[derive(Clone, Copy)]
#[repr(C)]
pub struct Records {
    /// Of the one call.
    pub one: Record,
    /// Of the other one.
    pub other: Record,
}

/// The datagrams of the two calls of a bridge.
#[derive(Clone, Copy)]
#[repr(C)]
pub struct PairDatagrams {
    /// Of the one call.
    pub one: Datagrams,
    /// Of the other one.
    pub other: Datagrams,
}

/// A call: what comes from both sides, the coders, and what goes out.
#[derive(Drop)]
pub struct Call {
    /// The law of the octets from and to the exchange.
    pub law: Law,
    /// The coders.
    pub coders: Coders,
    /// What is kept of the frames that came.
    pub hearing: Hearing,
    /// In a pause: the silence descriptors that were made since the last one that was sent.
    pub pause: Option<u32>,
    /// Periods for which nothing came from the exchange.
    pub no_line: u32,
    /// The stream that comes from the base station.
    pub gsm: Incoming<33>,
    /// The stream that comes from the exchange.
    pub pcm: Incoming<160>,
    /// The stream that goes to the base station.
    pub to_gsm: Outgoing,
    /// The stream that goes to the exchange.
    pub to_pcm: Outgoing,
}

// The octets of a period of a line, idle ones if none came, which counts.
fn octets_of(line: Option<[u8; 160]>, law: Law, no_line: &mut u32) -> [u8; 160]
    ensures octets { result ≡ unwrap_or line (replicate 160 (idle_of law)) }
    ensures count { no_line.new ≡ no_line_after line no_line.old }
{
    match line {
        Some(octets) => octets,
        None => {
            *no_line = no_line.wrapping_add(1);
            [idle_octet(law); 160]
        }
    }
}

impl Call {
    /// A call before its first period. The outgoing streams begin with random octets, ten each. None if a payload type
    /// isn't one of media.
    pub fn home(settings: &Settings, random: &[u8; 20]) -> Option<Call>
        ensures some { IfSome result (λ call. BeginsCall settings.now random.now call) }
        ensures none { result ≡ None → IsMedia settings.now.gsm → IsMedia settings.now.pcm → ⊥ }
        ensures stands { IfSome result (λ call. CallStands (who_is settings.now.number settings.now.law) [] (receiver_memory call.coders.receiver)
            (sender_memory call.coders.sender)) }
        ensures ready { IfSome result (λ call. IsReady call) }
    {
        if !is_media(settings.gsm) || !is_media(settings.pcm) {
            return None;
        }
        Some(Call {
            law: settings.law,
            coders: Coders::home(settings.number),
            hearing: Hearing::home(settings.prime),
            pause: None,
            no_line: 0,
            gsm: Incoming::home(settings.gsm, true, settings.depth),
            pcm: Incoming::home(settings.pcm, false, settings.depth),
            to_gsm: Outgoing::home(settings.gsm, &random[..10]),
            to_pcm: Outgoing::home(settings.pcm, &random[10..]),
        })
    }

    /// Takes a datagram from the base station.
    pub fn packet_from_station(&mut self, datagram: &[u8], tick: u32, behind: u32) -> Outcome
        requires { IsReady self.old }

        // What becomes of it, by its octets, the stream and the tick (`TakesDatagram`).
        ensures takes { TakesDatagram self.old.gsm self.new.gsm datagram.now tick behind result }

        // A stranger's datagram changes nothing but counts, who is on probation, and what came of the source that is
        // heard, of which `takes` says more.
        ensures only { (IsAdmitted self.old.gsm datagram.now tick → ⊥) → IsUntouched self.old.gsm self.new.gsm }
        ensures refused { result ≢ Outcome.Taken → PlaysTheSame self.old.gsm.stream self.new.gsm.stream }

        // The other side, both coders and both outgoing streams stay.
        ensures others { self.new ≡ record self.old { gsm = self.new.gsm } }
        ensures ready { IsReady self.new }
    {
        self.gsm.packet(datagram, tick, behind)
    }

    /// Takes a datagram from the exchange.
    pub fn packet_from_exchange(&mut self, datagram: &[u8], tick: u32, behind: u32) -> Outcome
        requires { IsReady self.old }
        ensures takes { TakesDatagram self.old.pcm self.new.pcm datagram.now tick behind result }

        // A stranger's datagram changes nothing but counts, who is on probation, and what came of the source that is
        // heard, of which `takes` says more.
        ensures only { (IsAdmitted self.old.pcm datagram.now tick → ⊥) → IsUntouched self.old.pcm self.new.pcm }
        ensures refused { result ≢ Outcome.Taken → PlaysTheSame self.old.pcm.stream self.new.pcm.stream }
        ensures others { self.new ≡ record self.old { pcm = self.new.pcm } }
        ensures ready { IsReady self.new }
    {
        self.pcm.packet(datagram, tick, behind)
    }

    // What a period has from both sides; the octets from the exchange go into its record.
    fn input(&mut self, tick: u32, recorded: &mut Record) -> Input
        requires { IsReady self.old }
        ensures law { result.law ≡ self.old.law }
        ensures station { HearsStation self.old self.new tick result.brought }
        ensures exchange { HearsExchange self.old self.new tick recorded.new.pcm }
        ensures others { self.new ≡ record self.old { hearing = self.new.hearing; no_line = self.new.no_line; gsm = self.new.gsm; pcm = self.new.pcm } }
        ensures ready { IsReady self.new }
    {
        let frame = take_frame(&mut self.gsm, tick);
        let brought = self.hearing.hear(frame);
        let law = self.law;
        let line = take_line(&mut self.pcm, law, tick);
        recorded.pcm = octets_of(line, law, &mut self.no_line);
        Input { law, brought }
    }

    // The datagrams of a period. Returns whether the base station gets one.
    fn send(
        &mut self,
        spoken: &Spoken,
        out: &[u8; 160],
        tick: u32,
        datagrams: &mut Datagrams,
    ) -> bool
        requires { IsReady self.old }
        ensures sent { result ≡ is_sent spoken.now.kind self.old.pause }
        ensures gsm { result ≡ true → Carries datagrams.new.gsm (header_at self.old.to_gsm tick (is_speech spoken.now.kind)) spoken.now.frame }
        ensures to_gsm { self.new.to_gsm ≡ station_after spoken.now.kind self.old.pause self.old.to_gsm }
        ensures pause { self.new.pause ≡ pause_after spoken.now.kind self.old.pause }
        ensures pcm { Carries datagrams.new.pcm (header_at self.old.to_pcm tick true) out.now }
        ensures to_pcm { self.new.to_pcm ≡ sent self.old.to_pcm 160 true }
        ensures others { self.new ≡ record self.old { pause = self.new.pause; to_gsm = self.new.to_gsm; to_pcm = self.new.to_pcm } }
        ensures ready { IsReady self.new }
    {
        self.to_pcm.packet(tick, out, true, &mut datagrams.pcm);
        send_frame(
            &mut self.to_gsm,
            &mut self.pause,
            spoken,
            tick,
            &mut datagrams.gsm,
        )
    }

    /// Processes a period of a call that is in no bridge: plays what came from both sides, and writes what is recorded,
    /// the datagram to the exchange, and the one to the base station if the answer says so.
    pub fn turn(
        &mut self,
        tick: u32,
        level: i16,
        dtx: bool,
        recorded: &mut Record,
        datagrams: &mut Datagrams,
    ) -> bool
        requires { IsReady self.old }

        // If the coders stand for the recorded periods so far: the recorded Out and Down are those that `trau run`
        // makes of the recorded Up and Pcm, whatever the network brought.
        ensures replay { (number : ℕ) (past : List CallPeriod) →
            CallStands (who_is number self.old.law) past (receiver_memory self.old.coders.receiver) (sender_memory self.old.coders.sender) →
            Replays (who_is number self.old.law) (period_of recorded.new.up recorded.new.pcm level dtx ∷ past) (receiver_memory self.new.coders.receiver)
            (sender_memory self.new.coders.sender) recorded.new.out recorded.new.down }

        // Up and Pcm are what came: what each stream plays at this tick.
        ensures input { RecordsInput self.old self.new tick recorded.new.up recorded.new.pcm }

        // The base station gets the frame of Down, if the answer says so; the exchange gets the octets of Out.
        ensures gsm { SpeaksToStation self.old self.new tick recorded.new.down datagrams.new.gsm result }
        ensures pcm { SpeaksToExchange self.old self.new tick recorded.new.out datagrams.new.pcm }
        ensures law { self.new.law ≡ self.old.law }
        ensures ready { IsReady self.new }
    {
        let input = self.input(tick, recorded);
        let spoken = self.coders.period(&input, level, dtx, recorded);
        self.send(&spoken, &recorded.out, tick, datagrams)
    }

    /// The clock has given up so many periods.
    pub fn give_up(&mut self, periods: u32, tick: u32)
        requires { IsReady self.old }
        ensures from_gsm { GivesUp self.old.gsm.stream self.new.gsm.stream periods tick }
        ensures from_pcm { GivesUp self.old.pcm.stream self.new.pcm.stream periods tick }
        ensures to_gsm { self.new.to_gsm ≡ gone_on periods self.old.to_gsm }
        ensures to_pcm { self.new.to_pcm ≡ gone_on periods self.old.to_pcm }

        // The coders, and so the recorded periods that they stand for, stay.
        ensures others { self.new ≡ record self.old {
          gsm = record self.old.gsm { stream = self.new.gsm.stream };
          pcm = record self.old.pcm { stream = self.new.pcm.stream };
          to_gsm = self.new.to_gsm;
          to_pcm = self.new.to_pcm;
        } }
        ensures ready { IsReady self.new }
    {
        self.gsm.give_up(periods, tick);
        self.pcm.give_up(periods, tick);
        self.to_gsm.give_up(periods);
        self.to_pcm.give_up(periods);
    }
}

/// Processes a period of the two calls of a bridge: both hear before one speaks. All datagrams are sent.
pub fn turn_pair(
    one: &mut Call,
    other: &mut Call,
    tick: u32,
    records: &mut Records,
    datagrams: &mut PairDatagrams,
)
    requires one { IsReady one.old }
    requires other { IsReady other.old }

    // Each call is handed what the other one's call of `trau run` hands over (`items_are_effective_frames` of
    // `call_coders`).
    ensures replay { (number other_number : ℕ) (past other_past : List CallPeriod) (level other_level : ℤ) (dtx other_dtx starts other_starts : Bool) →
        CallStands (who_is number one.old.law) past (receiver_memory one.old.coders.receiver) (sender_memory one.old.coders.sender) →
        CallStands (who_is other_number other.old.law) other_past (receiver_memory other.old.coders.receiver) (sender_memory other.old.coders.sender) →
        CanBeBridged starts past → CanBeBridged other_starts other_past →
        Replays (who_is number one.old.law)
        (bridged_period records.new.one.up records.new.one.pcm level dtx starts (item_of other_number records.new.other.up other_past) ∷ past)
        (receiver_memory one.new.coders.receiver) (sender_memory one.new.coders.sender) records.new.one.out records.new.one.down
        × Replays (who_is other_number other.old.law)
        (bridged_period records.new.other.up records.new.other.pcm other_level other_dtx other_starts (item_of number records.new.one.up past) ∷ other_past)
        (receiver_memory other.new.coders.receiver) (sender_memory other.new.coders.sender) records.new.other.out records.new.other.down }

    // Up and Pcm of both are what came.
    ensures input { RecordsInput one.old one.new tick records.new.one.up records.new.one.pcm
        × RecordsInput other.old other.new tick records.new.other.up records.new.other.pcm }

    // Both base stations get the speech that Down carries.
    ensures gsm { SpeaksToStation one.old one.new tick records.new.one.down datagrams.new.one.gsm true
        × SpeaksToStation other.old other.new tick records.new.other.down datagrams.new.other.gsm true }
    ensures pcm { SpeaksToExchange one.old one.new tick records.new.one.out datagrams.new.one.pcm
        × SpeaksToExchange other.old other.new tick records.new.other.out datagrams.new.other.pcm }
    ensures laws { (one.new.law ≡ one.old.law) × (other.new.law ≡ other.old.law) }
    ensures ready { IsReady one.new × IsReady other.new }
{
    let to_one = one.input(tick, &mut records.one);
    let to_other = other.input(tick, &mut records.other);
    let (first, second) = bridged(
        &mut one.coders,
        &mut other.coders,
        &to_one,
        &to_other,
        &mut records.one,
        &mut records.other,
    );
    one.send(&first, &records.one.out, tick, &mut datagrams.one);
    other.send(&second, &records.other.out, tick, &mut datagrams.other);
}
