//! The two coders of a call: a period, in a bridge or outside of one, and the record of it.

ghost use Rattle.std.specs.Prelude.{◌≡◌, ℕ, ℤ, Bool, true, false, List, [], ◌∷◌, Some};
ghost use Rattle.trau_alaw.specs.declared.Law.{Law};
ghost use Rattle.trau_alaw.specs.Period.{compressed};
ghost use Rattle.fr_sides.specs.Memory.{receiver_memory, sender_memory};
ghost use Rattle.fr_sides.specs.Receiving.{no_samples};
ghost use Rattle.fr_sides.specs.Sending.{SenderStands};
ghost use Rattle.fr_sides.specs.Downlink.{WrittenDownlink};
ghost use Rattle.fr_sides.specs.Uplink.{WrittenUplink};
ghost use Rattle.call_leg.specs.Periods.{CallPeriod};
ghost use Rattle.call_sides.specs.Written.{AreOctets33, kind_of_sp};
ghost use Rattle.call_coders.specs.Replay.{HeardPeriod, SpokenPeriod, HandedPeriod, CallStands, Replays, CanBeBridged, IsCarried, number_of, kind_sent, who_is, period_of, bridged_period, item_of};

use fr_sides::{
    IDLE, Receiver, SID, SPEECH, Sender, hand_octets, receive_octets, send_octets, write_downlink,
    write_uplink,
};
use trau_alaw::{Law, compress_all, expand_all};

/// What a period brought from the base station: 33 octets, their kind, and whether a silence descriptor was due.
#[derive(Clone, Copy)]
pub struct Brought {
    /// The octets of a frame; any, if none came.
    pub frame: [u8; 33],
    /// Speech, a silence descriptor, or lost (`fr_sides`).
    pub kind: u32,
    /// A silence descriptor was due.
    pub taf: bool,
}

/// What a period of a call has, beside the octets from the exchange, which are in its record.
#[derive(Clone, Copy)]
pub struct Input {
    /// The law of the call's octets from and to the exchange.
    pub law: Law,
    /// From the base station.
    pub brought: Brought,
}

/// What is recorded of a period.
#[derive(Clone, Copy)]
#[repr(C)]
pub struct Record {
    /// The frame on Up.
    pub up: [u8; 40],
    /// The octets of Pcm.
    pub pcm: [u8; 160],
    /// The frame that Down has in the next period.
    pub down: [u8; 40],
    /// The octets of Out.
    pub out: [u8; 160],
}

/// What Down carries in a period.
#[derive(Clone, Copy)]
pub enum DownKind {
    /// Speech (SP 1).
    Speech,
    /// A silence descriptor (SP 0).
    Descriptor,
    /// An idle frame.
    Idle,
}

/// What is said to the base station in a period.
#[derive(Clone, Copy)]
pub struct Spoken {
    /// The frame that Down carries; any, if it is idle.
    pub frame: [u8; 33],
    /// What it is.
    pub kind: DownKind,
}

/// The two coders of a call.
#[derive(Drop)]
#[repr(C)]
pub struct Coders {
    /// The side that hears the base station.
    pub receiver: Receiver,
    /// The side that speaks to it.
    pub sender: Sender,
}

// Takes an array and does nothing.
fn pass(_octets: &[u8; 33]) {}

// The entries of the array are octets, for proofs. This is known only after the array is passed to a function.
fn are_octets(octets: &[u8; 33])
    ensures { AreOctets33 octets.now }
{
    pass(octets);
}

impl DownKind {
    // Its number for `fr_sides`.
    fn number(self) -> u32
        ensures { result ≡ number_of self }
    {
        match self {
            DownKind::Speech => SPEECH,
            DownKind::Descriptor => SID,
            DownKind::Idle => IDLE,
        }
    }

    // That of a frame that is sent.
    fn of(speech: bool) -> DownKind
        ensures number { number_of result ≡ kind_of_sp speech }
        ensures kind { result ≡ kind_sent speech }
    {
        if speech {
            DownKind::Speech
        } else {
            DownKind::Descriptor
        }
    }
}

// Hears a period. Returns false if the call is quiet.
fn hear(receiver: &mut Receiver, law: Law, brought: &Brought, out: &mut [u8; 160]) -> bool
    ensures { HeardPeriod law brought.now.frame brought.now.kind brought.now.taf (receiver_memory receiver.old)
        (receiver_memory receiver.new) out.new result }
{
    let mut samples = [0; 160];
    let sounds = receive_octets(
        receiver,
        &brought.frame,
        brought.kind,
        brought.taf,
        &mut samples,
    );
    compress_all(law, &samples, out);
    sounds
}

// Speaks a period: what the exchange said goes to Down.
fn speak(
    sender: &mut Sender,
    law: Law,
    pcm: &[u8; 160],
    level: i16,
    dtx: bool,
    down: &mut [u8; 40],
) -> Spoken
    ensures period { SpokenPeriod law pcm.now level dtx (sender_memory sender.old) (sender_memory sender.new) result.frame
        (number_of result.kind) down.new }
    ensures carried { IsCarried result.frame result.kind down.new }
{
    call_sides::laws::written_frames_are_those_of_the_line();
    let samples = expand_all(law, pcm);
    let mut frame = [0; 33];
    let speech = send_octets(sender, &samples, level, dtx, &mut frame);
    are_octets(&frame);
    let kind = DownKind::of(speech);
    *down = write_downlink(&frame, kind.number());
    Spoken { frame, kind }
}

// Nothing is spoken: Down is idle.
fn keep_quiet(down: &mut [u8; 40]) -> Spoken
    ensures kind { result.kind ≡ DownKind.Idle }
    ensures carried { IsCarried result.frame result.kind down.new }
{
    call_sides::laws::written_frames_are_those_of_the_line();
    let frame = [0; 33];
    let kind = DownKind::Idle;
    *down = write_downlink(&frame, kind.number());
    Spoken { frame, kind }
}

impl Coders {
    /// Before the first period.
    pub fn home(number: u16) -> Coders
        ensures { (law : Law) → CallStands (who_is number law) [] (receiver_memory result.receiver) (sender_memory result.sender) }
    {
        Coders {
            receiver: Receiver::home(number),
            sender: Sender::home(),
        }
    }

    /// Processes a period of a call that is in no bridge: hears what the base station brought, and says what the
    /// exchange said, which is in the record already.
    pub fn period(&mut self, input: &Input, level: i16, dtx: bool, recorded: &mut Record) -> Spoken
        // If the state stands for the recorded periods so far, it stands for them with this one after it. The octets of
        // Out, and the frame for Down, are those that a call of `trau run` makes of the recorded Up and Pcm.
        ensures replay { (number : ℕ) (past : List CallPeriod) →
            CallStands (who_is number input.now.law) past (receiver_memory self.old.receiver) (sender_memory self.old.sender) →
            Replays (who_is number input.now.law) (period_of recorded.new.up recorded.new.pcm level dtx ∷ past) (receiver_memory self.new.receiver)
            (sender_memory self.new.sender) recorded.new.out recorded.new.down }

        // Up says what the base station brought, and Pcm is what the exchange said.
        ensures up { WrittenUplink input.now.brought.frame input.now.brought.kind input.now.brought.taf recorded.new.up }
        ensures pcm { recorded.new.pcm ≡ recorded.old.pcm }
        ensures down { IsCarried result.frame result.kind recorded.new.down }
    {
        call_sides::laws::the_receive_side_gives_the_out_line();
        call_sides::laws::the_transmit_side_gives_the_down_line();
        call_sides::laws::whole_frames_are_heard();
        call_sides::laws::written_frames_are_those_of_the_line();
        let law = input.law;
        let brought = &input.brought;
        are_octets(&brought.frame);
        recorded.up = write_uplink(&brought.frame, brought.kind, brought.taf);
        if hear(&mut self.receiver, law, brought, &mut recorded.out) {
            speak(
                &mut self.sender,
                law,
                &recorded.pcm,
                level,
                dtx,
                &mut recorded.down,
            )
        } else {
            self.sender = Sender::home();
            keep_quiet(&mut recorded.down)
        }
    }

    // Hears a period of a call in a bridge: returns the frame that it hands to its partner.
    fn hand(&mut self, brought: &Brought, up: &mut [u8; 40]) -> [u8; 33]
        ensures handed { HandedPeriod (receiver_memory self.old.receiver) (receiver_memory self.new.receiver) up.new result }
        ensures up { WrittenUplink brought.now.frame brought.now.kind brought.now.taf up.new }
        ensures sender { self.new.sender ≡ self.old.sender }
    {
        are_octets(&brought.frame);
        *up = write_uplink(&brought.frame, brought.kind, brought.taf);
        let mut frame = [0; 33];
        let _sounds = hand_octets(
            &mut self.receiver,
            &brought.frame,
            brought.kind,
            brought.taf,
            &mut frame,
        );
        frame
    }

    // Says in a bridge what the partner handed over, after this was heard.
    fn carry(&mut self, law: Law, frame: [u8; 33], recorded: &mut Record) -> Spoken
        ensures receiver { self.new.receiver ≡ self.old.receiver }
        ensures sender { SenderStands [] (sender_memory self.new.sender) }
        ensures others { recorded.new ≡ record recorded.old { down = recorded.new.down; out = recorded.new.out } }
        ensures out { recorded.new.out ≡ compressed law no_samples }
        ensures frame { result.frame ≡ frame }
        ensures kind { result.kind ≡ DownKind.Speech }
        ensures down { WrittenDownlink frame 0 recorded.new.down }
        ensures octets { AreOctets33 frame }
    {
        are_octets(&frame);
        self.sender = Sender::home();
        compress_all(law, &[0; 160], &mut recorded.out);
        let kind = DownKind::Speech;
        recorded.down = write_downlink(&frame, kind.number());
        Spoken { frame, kind }
    }
}

/// Processes a period of the two calls of a bridge: both hear before one speaks. The octets from the exchange are in
/// the records already.
pub fn bridged(
    one: &mut Coders,
    other: &mut Coders,
    to_one: &Input,
    to_other: &Input,
    of_one: &mut Record,
    of_other: &mut Record,
) -> (Spoken, Spoken)
    // Each call replays its recorded lines, if it is handed what the other one hands over.
    ensures replay { (number other_number : ℕ) (past other_past : List CallPeriod) (level other_level : ℤ) (dtx other_dtx starts other_starts : Bool) →
        CallStands (who_is number to_one.now.law) past (receiver_memory one.old.receiver) (sender_memory one.old.sender) →
        CallStands (who_is other_number to_other.now.law) other_past (receiver_memory other.old.receiver) (sender_memory other.old.sender) →
        CanBeBridged starts past → CanBeBridged other_starts other_past →
        Replays (who_is number to_one.now.law)
        (bridged_period of_one.new.up of_one.new.pcm level dtx starts (item_of other_number of_other.new.up other_past) ∷ past)
        (receiver_memory one.new.receiver) (sender_memory one.new.sender) of_one.new.out of_one.new.down
        × Replays (who_is other_number to_other.now.law)
        (bridged_period of_other.new.up of_other.new.pcm other_level other_dtx other_starts (item_of number of_one.new.up past) ∷ other_past)
        (receiver_memory other.new.receiver) (sender_memory other.new.sender) of_other.new.out of_other.new.down }
    ensures ups { WrittenUplink to_one.now.brought.frame to_one.now.brought.kind to_one.now.brought.taf of_one.new.up
        × WrittenUplink to_other.now.brought.frame to_other.now.brought.kind to_other.now.brought.taf of_other.new.up }
    ensures pcms { (of_one.new.pcm ≡ of_one.old.pcm) × (of_other.new.pcm ≡ of_other.old.pcm) }

    // What Down carries, which is speech.
    ensures down { IsCarried result.0.frame result.0.kind of_one.new.down × IsCarried result.1.frame result.1.kind of_other.new.down }
    ensures speech { (result.0.kind ≡ DownKind.Speech) × (result.1.kind ≡ DownKind.Speech) }
{
    call_sides::laws::the_receive_side_gives_the_out_line();
    call_sides::laws::the_transmit_side_gives_the_down_line();
    call_sides::laws::whole_frames_are_heard();
    call_sides::laws::written_frames_are_those_of_the_line();
    let by_one = one.hand(&to_one.brought, &mut of_one.up);
    let by_other = other.hand(&to_other.brought, &mut of_other.up);
    let first = one.carry(to_one.law, by_other, of_one);
    let second = other.carry(to_other.law, by_one, of_other);
    (first, second)
}
