//! A slice of bits, which may begin and end within an octet.
#![tactic(auto)]

ghost use Rattle.std.specs.Prelude.{◌≡◌, ◌+◌, ◌*◌, ◌^◌, ◌<◌, ◌≤◌, ◌++◌, length, take, drop};
ghost use Rattle.pel_bits.specs.Bits.{bits, number};
ghost use Rattle.pel_bits.specs.Buffer.{filled_up, whole};

use crate::octets::{copy_run, number_at};
use std::marker::Model;

/// A slice of bits. Contracts see the list of its bits.
#[derive(Drop)]
pub struct Bits<'a> {
    octets: &'a [u8],
    from: usize,
    len: u32,
}

impl<'a> Model for Bits<'a> {
    ghost use Rattle.std.specs.Prelude.{◌+◌, ◌*◌, ◌^◌, ◌≤◌, ◌<◌, Bool, List, length, take, drop};
    ghost use Rattle.pel_bits.specs.Bits.{bits};

    ghost Value = { List Bool };

    ghost view = { λ b. take b.len (drop b.from (bits b.octets.now)) };

    ghost invariant = { λ b. (b.from + b.len ≤ 8 * length b.octets.now) × (b.from + b.len < 2 ^ 33) × (b.len < 2 ^ 32) };
}

impl<'a> Bits<'a> {
    /// The `len` bits of `octets` from bit `from` on, the most significant bit of an octet first.
    pub fn new(octets: &'a [u8], from: u32, len: u32) -> Bits<'a>
        requires { from + len ≤ 8 * length octets.now }
        ensures value { result ≡ take len (drop from (bits octets.now)) }
        ensures long { length result ≡ len }
    {
        Bits {
            octets,
            from: from as usize,
            len,
        }
    }

    /// The `len` bits from bit `from` of these on.
    pub fn slice(&self, from: u32, len: u32) -> Bits<'a>
        requires { from + len ≤ length self.now }
        ensures value { result ≡ take len (drop from self.now) }
        ensures long { length result ≡ len }
    {
        Bits {
            octets: self.octets,
            from: self.from + from as usize,
            len,
        }
    }

    /// The number of bits.
    pub fn len(&self) -> u32
        ensures { result ≡ length self.now }
    {
        self.len
    }

    /// The number that `width` bits, 32 at most, from bit `from` on spell.
    #[inline]
    pub fn number(&self, from: u32, width: u32) -> u32
        requires width { width ≤ 32 }
        requires inside { from + width ≤ length self.now }
        ensures { result ≡ number (take width (drop from self.now)) }
    {
        self.wide_number(from, width) as u32
    }

    // The same for 56 bits at most.
    #[inline]
    pub(crate) fn wide_number(&self, from: u32, width: u32) -> u64
        requires width { width ≤ 56 }
        requires inside { from + width ≤ length self.now }
        ensures { result ≡ number (take width (drop from self.now)) }
    {
        number_at(self.octets, self.from + from as usize, width)
    }

    /// Copies the bits behind the first `at` bits of `octets`, and writes zeros to the end of their last octet.
    pub(crate) fn copy_to(&self, octets: &mut [u8], at: usize)
        requires room { at + length self.now + 64 ≤ 8 * length octets.old }
        requires small { at + length self.now < 2 ^ 32 }
        requires clean { take (whole at) (bits octets.old) ≡ filled_up (take at (bits octets.old)) }
        ensures { take (whole (at + length self.now)) (bits octets.new)
            ≡ filled_up (take at (bits octets.old) ++ self.now) }
    {
        copy_run(octets, at, self.octets, self.from, self.len as usize);
    }
}
