//! Packets that do not count.
ghost use Rattle.std.specs.Prelude.{◌≡◌, ℕ, Option, option_map};
ghost use Rattle.bridge_replay.specs.Account.{idle_behind};
ghost use Rattle.rtp_h261.specs.Packets.{is_usable, piece_of};
ghost use Rattle.rtp_h261.specs.Units.{Piece};

use pel_bits::Bits;
use rtp_wire::read_packet;

/// Why a packet gives nothing.
#[derive(Clone, Copy, Debug, PartialEq, Eq)]
pub enum Idle {
    /// It is no RTP packet, or its payload is none of H.261.
    Unusable,
    /// It has the number of the packet that counted last in its lane.
    Repeated,
    /// It comes behind packets that were sent after it.
    Late,
}

/// The sequence number of a packet, where it is usable.
pub fn number_of(packet: &[u8]) -> Option<u16>
    ensures { result ≡ option_map (λ (p : Piece). p.number) (piece_of packet.now) }
{
    let Ok(read) = read_packet(packet) else {
        return None;
    };
    if is_usable(read.payload) {
        Some(read.seq)
    } else {
        None
    }
}

// Whether a payload has its header, and as many bits as that takes away by SBIT and EBIT.
fn is_usable(payload: &[u8]) -> bool
    ensures { result ≡ is_usable payload.now }
{
    if payload.len() < 4 {
        return false;
    }
    let header = Bits::new(payload, 0, 32);
    let away = header.number(0, 3) + header.number(3, 3);
    // one octet more than a packet may have of which all is taken away
    let there = (payload.len() - 4).min(0x10000) as u32 * 8;
    away <= there
}

/// Why a packet with this number does not count, if it does not, where the one that counted last has that number.
pub fn idle_behind(last: Option<u16>, number: Option<u16>) -> Option<Idle>
    ensures { (before packet : Option Piece) → last ≡ option_map (λ (p : Piece). p.number) before
        → number ≡ option_map (λ (p : Piece). p.number) packet → result ≡ idle_behind before packet }
{
    let Some(number) = number else {
        return Some(Idle::Unusable);
    };
    let last = last?;
    let distance = number.wrapping_sub(last.wrapping_add(1));
    if distance < 0x8000 {
        None
    } else if number == last {
        Some(Idle::Repeated)
    } else {
        Some(Idle::Late)
    }
}
