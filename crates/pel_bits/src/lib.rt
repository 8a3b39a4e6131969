//! Bits: a slice of them, a reader over it, and a buffer to which they are appended.
#![tactic(auto)]

mod buffer;
mod octets;
mod reader;
mod slice;

ghost use Rattle.std.specs.Prelude.{◌≡◌, ℕ, ◌%◌, ◌^◌, ◌<◌, Bool, List, length};
ghost use Rattle.pel_bits.specs.Bits.{field, number};

pub use buffer::BitBuf;
pub use reader::Reader;
pub use slice::Bits;
use std::alloc::AllocError;
use thiserror::Error;

/// Memory that was asked for is not there. Every call that takes memory answers it, and no clause ties it to
/// a cause.
#[derive(Debug, Clone, Copy, PartialEq, Eq, Error)]
#[error("no memory")]
pub struct NoMemory;

impl From<AllocError> for NoMemory {
    fn from(_error: AllocError) -> NoMemory {
        NoMemory
    }
}

/// The laws that join fields and numbers: a field spells its number modulo a power of two, and bits are the field
/// of the number that they spell.
pub fn field_laws()
    ensures spelled { (n w : ℕ) → number (field n w) ≡ n % 2 ^ w }
    ensures again { (bs : List Bool) → field (number bs) (length bs) ≡ bs }
    ensures below { (bs : List Bool) → number bs < 2 ^ length bs }
{}

#[cfg(test)]
mod tests {
    use super::*;

    #[test]
    fn fields_of_a_picture_header(rt: HostRuntime) -> Result<(), NoMemory> {
        let mut buffer = BitBuf::with_capacity(rt.alloc(), 32)?;
        buffer.push(0x10, 20);
        buffer.push(5, 5);
        buffer.push(3, 6);
        buffer.push(0, 1);
        assert_eq!(rt; buffer.octets(), [0x00, 0x01, 0x02, 0x86].as_slice());
        let mut reader = Reader::new(buffer.bits());
        assert_eq!(rt; reader.take(20), Some(0x10));
        assert_eq!(rt; reader.peek(16), 0x2860);
        reader.skip(5);
        assert_eq!(rt; reader.take(8), None);
        assert_eq!(rt; (reader.place(), reader.left()), (25, 7));
        Ok(())
    }

    #[test]
    fn slices_appended_within_octets(rt: HostRuntime) -> Result<(), NoMemory> {
        let source = [
            0x01, 0x23, 0x45, 0x67, 0x89, 0xab, 0xcd, 0xef, 0xfe, 0xdc, 0xba, 0x98,
        ];
        let mut buffer = BitBuf::with_capacity(rt.alloc(), 200)?;
        buffer.append(Bits::new(&source, 4, 88));
        assert_eq!(rt;
            buffer.octets(),
            [
                0x12, 0x34, 0x56, 0x78, 0x9a, 0xbc, 0xde, 0xff, 0xed, 0xcb, 0xa9,
            ]
            .as_slice()
        );
        buffer.clear();
        buffer.push(0x16, 5);
        buffer.append(Bits::new(&[0xa5, 0x3c, 0x0f, 0xf0, 0x55], 3, 30));
        assert_eq!(rt; buffer.octets(), [0xb1, 0x4f, 0x03, 0xfc, 0x00].as_slice());
        Ok(())
    }

    #[test]
    fn long_slice_appended(rt: HostRuntime) -> Result<(), NoMemory> {
        let mut buffer = BitBuf::with_capacity(rt.alloc(), 300)?;
        buffer.append(Bits::new(&[0xa5; 40], 4, 296));
        assert_eq!(rt; buffer.octets(), [0x5a; 37].as_slice());
        Ok(())
    }
}
