//! A buffer to which bits are appended.
#![tactic(auto)]

ghost use Rattle.std.specs.Prelude.{◌≡◌, ◌+◌, ◌^◌, ◌<◌, ◌≤◌, [], ◌++◌, length, IfOk};
ghost use Rattle.pel_bits.specs.Bits.{bits, field};
ghost use Rattle.pel_bits.specs.Buffer.{filled_up};

use crate::NoMemory;
use crate::octets::put;
use crate::slice::Bits;
use std::alloc::Global;
use std::marker::Model;

/// A buffer of bits with a fixed capacity. Contracts see the list of its bits and its capacity.
#[derive(Drop)]
pub struct BitBuf {
    octets: Vec<u8>,
    len: u32,
    capacity: u32,
}

impl Model for BitBuf {
    ghost use Rattle.std.specs.Prelude.{◌≡◌, ◌+◌, ◌*◌, ◌^◌, ◌<◌, ◌≤◌, length, take};
    ghost use Rattle.pel_bits.specs.Bits.{bits};
    ghost use Rattle.pel_bits.specs.Buffer.{Buffer, filled_up, whole};

    ghost Value = { Buffer };

    ghost view = { λ b. record { list = take b.len (bits b.octets.items); capacity = b.capacity } };

    ghost invariant = { λ b. (b.len ≤ b.capacity) × (b.capacity < 2 ^ 32) × (b.capacity + 64 ≤ 8 * length b.octets.items)
        × (take (whole b.len) (bits b.octets.items) ≡ filled_up (take b.len (bits b.octets.items))) };
}

impl BitBuf {
    /// An empty buffer with room for `bits` bits. It takes all its memory here; NoMemory where there is none.
    pub fn with_capacity(alloc: Global, bits: u32) -> Result<BitBuf, NoMemory>
        ensures { IfOk result (λ buffer. buffer ≡ record { list = []; capacity = bits }) }
    {
        // eight octets behind the last bit, so that each run is written by one store
        let octets = vec![in alloc; 0; bits as usize / 8 + 9]?;
        Ok(BitBuf {
            octets,
            len: 0,
            capacity: bits,
        })
    }

    /// Takes all bits away.
    pub fn clear(&mut self)
        ensures { self.new ≡ record self.old { list = [] } }
    {
        self.len = 0;
    }

    /// The number of bits.
    pub fn len(&self) -> u32
        ensures { result ≡ length self.now.list }
    {
        self.len
    }

    /// The bits as a slice.
    pub fn bits(&self) -> Bits<'_>
        ensures { result ≡ self.now.list }
    {
        Bits::new(&self.octets, 0, self.len)
    }

    /// The octets of the bits, with zeros from the last bit to the end of its octet.
    pub fn octets(&self) -> &[u8]
        ensures { bits result.now ≡ filled_up self.now.list }
    {
        &self.octets[..(self.len as usize + 7) / 8]
    }

    /// Appends the last `width` bits of `value`, 32 at most, the most significant one first. There has to be room.
    pub fn push(&mut self, value: u32, width: u32)
        requires width { width ≤ 32 }
        requires fits { value < 2 ^ width }
        requires room { length self.old.list + width ≤ self.old.capacity }
        ensures value { self.new ≡ record self.old { list = self.old.list ++ field value width } }
        ensures long { length self.new.list ≡ length self.old.list + width }
    {
        put(&mut self.octets, self.len as usize, u64::from(value), width);
        self.len += width;
    }

    /// Appends a slice. There has to be room.
    pub fn append(&mut self, bits: Bits<'_>)
        requires { length self.old.list + length bits ≤ self.old.capacity }
        ensures value { self.new ≡ record self.old { list = self.old.list ++ bits.entry } }
        ensures long { length self.new.list ≡ length self.old.list + length bits.entry }
    {
        let len = bits.len();
        bits.copy_to(&mut self.octets, self.len as usize);
        self.len += len;
    }
}
