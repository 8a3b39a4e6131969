//! A reader that takes fields of bits from a slice.
#![tactic(auto)]

ghost use Rattle.std.specs.Prelude.{◌≡◌, ◌≤◌, ◌++◌, if◌then◌else◌, length, nat_lt, take};
ghost use Rattle.pel_bits.specs.Bits.{number};
ghost use Rattle.pel_bits.specs.Reading.{skipped, zeros};

use crate::slice::Bits;
use std::marker::Model;

/// A reader over a slice of bits. Contracts see the pair of the bits that are left and the place of the first of
/// them, which is the number of bits that were taken.
#[derive(Drop)]
pub struct Reader<'a> {
    bits: Bits<'a>,
    place: u32,
    left: u32,
}

impl<'a> Model for Reader<'a> {
    ghost use Rattle.std.specs.Prelude.{◌≡◌, ℕ, ◌+◌, ◌^◌, ◌<◌, Bool, List, length, drop};

    ghost Value = { List Bool × ℕ };

    ghost view = { λ r. (drop r.place r.bits, r.place) };

    ghost invariant = { λ r. (r.place + r.left ≡ length r.bits) × (length r.bits < 2 ^ 32) };
}

impl<'a> Reader<'a> {
    /// A reader at the first of the bits.
    pub fn new(bits: Bits<'a>) -> Reader<'a>
        ensures { result ≡ (bits.entry, 0) }
    {
        let left = bits.len();
        Reader {
            bits,
            place: 0,
            left,
        }
    }

    /// Another reader at the same place.
    pub fn copy(&self) -> Reader<'a>
        ensures { result ≡ self.now }
    {
        Reader {
            bits: self.bits.slice(0, self.bits.len()),
            place: self.place,
            left: self.left,
        }
    }

    /// A reader at the same place whose bits end behind the next `count` of these.
    pub fn first(&self, count: u32) -> Reader<'a>
        requires { count ≤ length self.now.0 }
        ensures { result ≡ (take count self.now.0, self.now.1) }
    {
        let place = self.place;
        Reader {
            bits: self.bits.slice(0, place + count),
            place,
            left: count,
        }
    }

    /// The number that the next `width` bits spell, or None where fewer are left, and then none is taken. At most
    /// 32 bits.
    #[inline]
    pub fn take(&mut self, width: u32) -> Option<u32>
        requires { width ≤ 32 }
        ensures value { result ≡
            (if nat_lt (length self.old.0) width then None else Some (number (take width self.old.0))) }
        ensures after { self.new ≡ (if nat_lt (length self.old.0) width then self.old else skipped width self.old) }
    {
        if self.left < width {
            return None;
        }
        let value = self.bits.number(self.place, width);
        self.place += width;
        self.left -= width;
        Some(value)
    }

    /// The number that the next `width` bits spell, which stay; zeros stand past the end. At most 32 bits.
    #[inline]
    pub fn peek(&self, width: u32) -> u32
        requires { width ≤ 32 }
        ensures { result ≡ number (take width (self.now.0 ++ zeros width)) }
    {
        if self.left >= width {
            self.bits.number(self.place, width)
        } else {
            let front = u64::from(self.bits.number(self.place, self.left));
            (front << (width - self.left)) as u32
        }
    }

    /// The number that the next 56 bits spell, which stay.
    #[inline]
    pub fn window(&self) -> u64
        requires { 56 ≤ length self.now.0 }
        ensures { result ≡ number (take 56 self.now.0) }
    {
        self.bits.wide_number(self.place, 56)
    }

    /// Moves past `count` bits.
    #[inline]
    pub fn skip(&mut self, count: u32)
        requires { count ≤ length self.old.0 }
        ensures { self.new ≡ skipped count self.old }
    {
        self.place += count;
        self.left -= count;
    }

    /// The bits that are left.
    pub fn rest(&self) -> Bits<'a>
        ensures { result ≡ self.now.0 }
    {
        self.bits.slice(self.place, self.left)
    }

    /// The number of bits that are left.
    #[inline]
    pub fn left(&self) -> u32
        ensures { result ≡ length self.now.0 }
    {
        self.left
    }

    /// The number of bits that were taken.
    #[inline]
    pub fn place(&self) -> u32
        ensures { result ≡ self.now.1 }
    {
        self.place
    }
}
