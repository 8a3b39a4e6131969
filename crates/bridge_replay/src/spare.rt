//! Boxes for the pictures of packets.
ghost use Rattle.std.specs.Prelude.{◌≡◌};
ghost use Rattle.pel_model.specs.declared.Format.TheVariants.{Qcif};

use h261_pic::Coded;
use pel_bits::NoMemory;
use pel_model::Format;
use std::alloc::Global;

/// A box for a QCIF picture.
#[derive(Drop)]
pub struct Spare {
    pub item: Box<Coded>,
    ghost qcif: { item.value.format ≡ Qcif },
}

impl Spare {
    /// A box with nothing coded in it; NoMemory where there is none.
    pub fn reserve(alloc: Global) -> Result<Spare, NoMemory> {
        let Ok(item) = Box::new(alloc, Coded::reserve(alloc, Format::Qcif)?) else {
            return Err(NoMemory);
        };
        Ok(Spare { item })
    }
}
