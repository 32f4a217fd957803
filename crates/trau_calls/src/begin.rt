//! The beginning and the end of a call.

ghost use Rattle.std.specs.Prelude.{◌≡◌, ◌≢◌, ◌≤◌, ◌%◌, ◌^◌, [], None, IfSome};
ghost use Rattle.fr_sides.specs.Memory.{receiver_memory, sender_memory};
ghost use Rattle.call_coders.specs.Replay.{CallStands, who_is};
ghost use Rattle.rtp_session.specs.Outgoing.{IsMedia};
ghost use Rattle.rtp_call.specs.Call.{BeginsCall};
ghost use Rattle.trau_calls.specs.Begun.{IsBegun};
ghost use Rattle.trau_calls.specs.Settings.{law_of, flag_of, settings_of};

use crate::handle::Handle;
use crate::parts::Parts;
use rtp_call::{Call, Settings};
use std::alloc::Global;
use trau_alaw::Law;

const BEGUN: u32 = 0;

const NO_MEMORY: u32 = 1;

const NO_MEDIA_TYPE: u32 = 2;

/// What a call begins with.
#[derive(Clone, Copy)]
#[repr(C)]
pub struct CallSettings {
    /// The call's number, modulo 2 to the 16th.
    pub number: u32,
    /// 0: A-law; any other number: mu-law.
    pub law: u32,
    /// The ticks that the first packet of a side waits.
    pub depth: u32,
    /// Unless it is 0: a first period without a good frame brings one of silence.
    pub prime: u8,
    /// The payload type of frames.
    pub gsm: u8,
    /// The payload type of octets by the law.
    pub pcm: u8,
    /// Ten octets for each outgoing stream, with which it begins.
    pub random: [u8; 20],
}

// The law of a number.
fn law_of(number: u32) -> Law
    ensures { result ≡ law_of number }
{
    if number == 0 { Law::A } else { Law::Mu }
}

// What C says of a call.
fn settings_of(said: &CallSettings) -> Settings
    ensures { result ≡ settings_of said.now }
{
    Settings {
        number: (said.number % 65536) as u16,
        law: law_of(said.law),
        depth: said.depth,
        prime: said.prime != 0,
        gsm: said.gsm,
        pcm: said.pcm,
    }
}

/// Begins a call. 0: it has begun; 1: out of memory; 2: a payload type isn't one of media. Unless it is 0, the handle
/// has no call.
#[unsafe(no_mangle)]
pub extern "C" fn trau_call_begin(heap: Global, handle: &mut Handle, settings: &CallSettings) -> u32
    requires { handle.old.call ≡ None }
    ensures begun { result ≡ 0 → IsBegun handle.new.call }
    ensures begins { IfSome handle.new.call (λ call. BeginsCall (settings_of settings.now) settings.now.random call) }
    ensures stands { IfSome handle.new.call (λ call. CallStands (who_is (settings.now.number % 2 ^ 16) (law_of settings.now.law)) []
        (receiver_memory call.coders.receiver) (sender_memory call.coders.sender)) }
    ensures refused { result ≢ 0 → handle.new.call ≡ None }
    ensures no_media_type { result ≡ 2 → IsMedia settings.now.gsm → IsMedia settings.now.pcm → ⊥ }
    ensures media { result ≢ 2 → IsMedia settings.now.gsm × IsMedia settings.now.pcm }
    ensures numbers { result ≤ 2 }
{
    match Call::home(&settings_of(settings), &settings.random) {
        None => NO_MEDIA_TYPE,
        Some(call) => match Box::new(heap, call) {
            Err(_) => NO_MEMORY,
            Ok(call) => {
                handle.put(Parts::of(call));
                BEGUN
            }
        },
    }
}

/// Ends a call, and frees its memory. The handle has none afterwards.
#[unsafe(no_mangle)]
pub extern "C" fn trau_call_end(heap: Global, handle: &mut Handle)
    requires { IsBegun handle.old.call }
    ensures { handle.new.call ≡ None }
{
    let _call = handle.take(heap).into_box();
}
