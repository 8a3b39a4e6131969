//! Strict texts joined bit by bit, and written by whole octets.
ghost use Rattle.std.specs.Prelude.{◌≡◌, ◌+◌, ◌<◌, ◌≤◌, ◌++◌, [], IfOk, length, drop};
ghost use Rattle.bare_stream.specs.Packed.{PutsBits, left_over};
ghost use Rattle.pel_bits.specs.Buffer.{filled_up};
ghost use Rattle.pel_bits.specs.Bits.{bits};

use h261_pic::Coded;
use io_edge::{Failed, Sink, put_all};
use pel_bits::{BitBuf, NoMemory};
use std::alloc::Global;
use std::marker::Model;

/// The most bits of a text, and the seven that may be left of the text before it.
const MOST_BITS: u32 = 262_144 + 7;

/// Writes the strict texts of pictures, one behind the other with no bit between. Contracts see the bits that are still to be
/// written, 0 to 7.
#[derive(Drop)]
pub struct TextWriter {
    pending: BitBuf,
}

impl Model for TextWriter {
    ghost use Rattle.std.specs.Prelude.{◌≡◌, ◌<◌, List, Bool, length};

    ghost Value = { List Bool };

    ghost view = { λ w. w.pending.list };

    ghost invariant = { λ w. (length w.pending.list < 8) × (w.pending.capacity ≡ 262151) };
}

impl TextWriter {
    /// A writer of nothing so far. It takes all its memory here; NoMemory where there is none.
    pub fn reserve(alloc: Global) -> Result<TextWriter, NoMemory>
        ensures { IfOk result (λ writer. writer ≡ []) }
    {
        Ok(TextWriter {
            pending: BitBuf::with_capacity(alloc, MOST_BITS)?,
        })
    }

    /// Writes the whole octets of the bits so far and the picture's text, and gives their number; what is left waits.
    pub fn put<K: Sink>(&mut self, picture: &Coded, sink: &mut K) -> Result<u64, Failed>
        ensures written { PutsBits (self.old ++ picture.now.bits) (K.tells sink.old) (K.tells sink.new) result }
        ensures pending { self.new ≡ left_over (self.old ++ picture.now.bits) }
        ensures few { IfOk result (λ octets. octets ≤ 32768) }
    {
        self.pending.append(picture.bits());
        let count = self.pending.len() as usize / 8;
        let result = put_octets(&self.pending.octets()[..count], sink);
        keep_from(&mut self.pending, count as u32 * 8);
        result
    }

    /// Writes the bits that are left, with zeros to a whole octet, and gives the number of octets, 1 or 0.
    pub fn finish<K: Sink>(&mut self, sink: &mut K) -> Result<u64, Failed>
        ensures written { PutsBits (filled_up self.old) (K.tells sink.old) (K.tells sink.new) result }
        ensures pending { self.new ≡ [] }
        ensures few { IfOk result (λ octets. octets ≤ 1) }
    {
        let result = put_octets(self.pending.octets(), sink);
        self.pending.clear();
        result
    }
}

// Writes octets, and gives their number.
fn put_octets<K: Sink>(octets: &[u8], sink: &mut K) -> Result<u64, Failed>
    ensures written { PutsBits (bits octets.now) (K.tells sink.old) (K.tells sink.new) result }
    ensures count { IfOk result (λ count. count ≡ length octets.now) }
{
    put_all(sink, octets)?;
    Ok(octets.len() as u64)
}

// Keeps the bits from a place on, fewer than eight.
fn keep_from(pending: &mut BitBuf, from: u32)
    requires { (from ≤ length pending.old.list) × (length pending.old.list < from + 8) × (8 ≤ pending.old.capacity) }
    ensures { pending.new ≡ record pending.old { list = drop from pending.old.list } }
{
    let width = pending.len() - from;
    let kept = pending.bits().number(from, width);
    pending.clear();
    pending.push(kept, width);
}
