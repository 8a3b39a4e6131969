//! The boxes of a lane, each with a picture of QCIF.
ghost use Rattle.std.specs.Prelude.{◌≡◌};
ghost use Rattle.pel_model.specs.declared.Format.TheVariants.{Qcif};

use h261_pic::Coded;
use pel_bits::NoMemory;
use pel_model::Format;
use std::alloc::Global;

/// A box of a QCIF picture, or of one that is to become one.
#[derive(Drop)]
pub struct QcifBox {
    pub item: Box<Coded>,
    ghost qcif: { item.value.format ≡ Qcif },
}

impl QcifBox {
    /// A box with nothing coded in it; NoMemory where there is none.
    pub fn reserve(alloc: Global) -> Result<QcifBox, NoMemory> {
        let Ok(item) = Box::new(alloc, Coded::reserve(alloc, Format::Qcif)?) else {
            return Err(NoMemory);
        };
        Ok(QcifBox { item })
    }
}
