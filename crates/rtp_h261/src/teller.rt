//! What is told of a stream of packets, and to whom.
ghost use Rattle.std.specs.Prelude.{◌≡◌, ℕ, List, [], ◌∷◌, IfOk, length};
ghost use Rattle.h261_pic.specs.Coded.{coding, IsFinished};
ghost use Rattle.io_edge.specs.Causes.{HasCause};
ghost use Rattle.pel_model.specs.Records.{Picture};
ghost use Rattle.pel_model.specs.Valid.{IsValid};
ghost use Rattle.rtp_h261.specs.Events.{Lost, Shown, Refused};
ghost use Rattle.rtp_h261.specs.Tellers.{Duty, PutsHere, TellsEvent};

use h261_pic::Coded;
use io_edge::{Failed, Sink, put_all};
use pel_model::Fault;

/// Is told what happens at the packets of a stream, each event with its number, and writes of each at most one piece. Each
/// call gives the octets that it wrote, 2^18 at most. Where the sink fails, a front of the piece was written, and not
/// all of it.
pub trait Teller {
    // The format of the pictures that it is told, what it is to write of events, and what it counted.
    ghost duty: { Self → Duty };

    /// Packets are missing.
    fn loss<K: Sink>(&mut self, number: u64, sink: &mut K) -> Result<u64, Failed>
        ensures { TellsEvent (duty self.old) (duty self.new) number Lost (K.tells sink.old) (K.tells sink.new) result };

    /// A unit is a picture.
    fn picture<K: Sink>(
        &mut self,
        number: u64,
        picture: &Coded,
        sink: &mut K,
    ) -> Result<u64, Failed>
        requires format { picture.now.format ≡ (duty self.old).format }
        requires finished { IsFinished picture.now }
        ensures { (p : Picture) → IsValid (duty self.old).format p → picture.now ≡ coding (duty self.old).format p →
            TellsEvent (duty self.old) (duty self.new) number (Shown p) (K.tells sink.old) (K.tells sink.new) result };

    /// A unit is no picture, and has this first fault.
    fn gap<K: Sink>(&mut self, number: u64, fault: Fault, sink: &mut K) -> Result<u64, Failed>
        ensures { TellsEvent (duty self.old) (duty self.new) number (Refused fault.place fault.why)
            (K.tells sink.old) (K.tells sink.new) result };

    // Where nothing more happens, nothing is to be written.
    ghost nothing_more: { (t : Self) (number : ℕ) → (duty t).pieces number [] ≡ [] };
}

/// Writes a piece whole, and gives the number of its octets. Where the sink fails, a front of the piece was written, and
/// not all of it.
pub fn put_piece<K: Sink>(piece: &[u8], sink: &mut K) -> Result<u64, Failed>
    ensures put { PutsHere (piece.now ∷ []) (K.tells sink.old).written (K.tells sink.new).written result }
    ensures octets { IfOk result (λ octets. octets ≡ length piece.now) }
    ensures cause { HasCause (K.tells sink.old).faults (K.tells sink.new).faults result }
{
    put_all(sink, piece)?;
    Ok(piece.len() as u64)
}
