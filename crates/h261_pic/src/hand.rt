//! The pictures of the four places.

ghost use Rattle.std.specs.Prelude.{◌≡◌, IfOk};
ghost use Rattle.pel_model.specs.declared.Format.TheVariants.{Qcif};
ghost use Rattle.h261_pic.specs.Coded.{nothing};

use crate::coded::Coded;
use pel_bits::NoMemory;
use pel_model::Format;
use std::alloc::Global;

/// Four QCIF pictures, one for each place of the composed picture.
#[derive(Drop)]
pub struct Hand {
    pub one: Box<Coded>,
    pub two: Box<Coded>,
    pub three: Box<Coded>,
    pub four: Box<Coded>,
}

impl Hand {
    /// Four empty pictures. It takes all their memory here; NoMemory where there is none.
    pub fn reserve(alloc: Global) -> Result<Hand, NoMemory>
        ensures one { IfOk result (λ hand. hand.one.value ≡ nothing Qcif) }
        ensures two { IfOk result (λ hand. hand.two.value ≡ nothing Qcif) }
        ensures three { IfOk result (λ hand. hand.three.value ≡ nothing Qcif) }
        ensures four { IfOk result (λ hand. hand.four.value ≡ nothing Qcif) }
    {
        Ok(Hand {
            one: Coded::boxed(alloc, Format::Qcif)?,
            two: Coded::boxed(alloc, Format::Qcif)?,
            three: Coded::boxed(alloc, Format::Qcif)?,
            four: Coded::boxed(alloc, Format::Qcif)?,
        })
    }
}

#[cfg(test)]
mod tests {
    use super::*;

    #[test]
    fn four_empty_pictures(rt: HostRuntime) -> Result<(), NoMemory> {
        let mut hand = Hand::reserve(rt.alloc())?;
        for picture in [&hand.one, &hand.two, &hand.three, &hand.four] {
            assert_eq!(rt;
                (picture.format(), picture.is_empty()),
                (Format::Qcif, true)
            );
        }
        hand.three.start(3);
        assert_eq!(rt; (hand.three.tr(), hand.four.tr()), (3, 0));
        Ok(())
    }
}
