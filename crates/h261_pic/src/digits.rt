//! Bits that are sent, for tests, from the digits 0 and 1.

use pel_bits::Bits;
use std::alloc::{AllocError, Global};

/// Digits put together as bits. What is no digit is passed over.
#[derive(Drop)]
pub struct Sent {
    pub octets: Vec<u8>,
    pub len: u32,
}

impl Sent {
    pub fn of(alloc: Global, pieces: &[&str]) -> Result<Sent, AllocError> {
        let mut sent = Sent {
            octets: Vec::new(alloc),
            len: 0,
        };
        for piece in pieces {
            sent.put(piece)?;
        }
        Ok(sent)
    }

    pub fn put(&mut self, digits: &str) -> Result<(), AllocError> {
        for digit in digits.bytes().filter(|digit| matches!(digit, b'0' | b'1')) {
            if self.len % 8 == 0 {
                self.octets.push(0)?;
            }
            if let Some(last) = self.octets.last_mut() {
                *last |= (digit - b'0') << (7 - self.len % 8);
            }
            self.len = self.len.wrapping_add(1);
        }
        Ok(())
    }

    pub fn put_times(&mut self, digits: &str, times: u32) -> Result<(), AllocError> {
        for _ in 0..times {
            self.put(digits)?;
        }
        Ok(())
    }

    /// The first bits, or all where there are not so many.
    pub fn front(&self, len: u32) -> Bits<'_> {
        let most = 8 * self.octets.len().min(100_000) as u32;
        Bits::new(&self.octets, 0, len.min(self.len).min(most))
    }

    pub fn bits(&self) -> Bits<'_> {
        self.front(self.len)
    }
}
