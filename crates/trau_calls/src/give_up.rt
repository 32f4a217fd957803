//! Time that the clock gives up.

ghost use Rattle.std.specs.Prelude.{◌≡◌};
ghost use Rattle.rtp_session.specs.Playing.{GivesUp};
ghost use Rattle.rtp_session.specs.Outgoing.{gone_on};
ghost use Rattle.trau_calls.specs.Begun.{IsBegun, FromTo};

use crate::handle::Handle;
use crate::parts::Parts;
use std::alloc::Global;

/// The clock has given up so many periods: they are no periods of the call.
#[unsafe(no_mangle)]
pub extern "C" fn trau_call_give_up(heap: Global, handle: &mut Handle, periods: u32, tick: u32)
    requires { IsBegun handle.old.call }
    ensures begun { IsBegun handle.new.call }
    ensures incoming { FromTo handle.old.call handle.new.call (λ old new.
        GivesUp old.gsm.stream new.gsm.stream periods tick × GivesUp old.pcm.stream new.pcm.stream periods tick) }
    ensures outgoing { FromTo handle.old.call handle.new.call (λ old new. (new.to_gsm ≡ gone_on periods old.to_gsm) × (new.to_pcm ≡ gone_on periods old.to_pcm)) }

    // The coders, and so the recorded periods that they stand for, stay.
    ensures others { FromTo handle.old.call handle.new.call (λ old new. new ≡ record old {
      gsm = record old.gsm { stream = new.gsm.stream };
      pcm = record old.pcm { stream = new.pcm.stream };
      to_gsm = new.to_gsm;
      to_pcm = new.to_pcm;
    }) }
{
    let mut call = handle.take(heap).into_box();
    call.give_up(periods, tick);
    handle.put(Parts::of(call));
}
