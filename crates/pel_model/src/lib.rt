//! The plain types of pictures, places and faults that every layer speaks in. What they mean stands in `specs/`.
#![tactic(auto)]

ghost use Rattle.std.specs.Prelude.{◌≡◌};
ghost use Rattle.pel_model.specs.Regions.{number_of};

mod chair;
mod held;
mod laws;
mod note;

pub use chair::{Command, Reply};
pub use held::Held;
pub use laws::one_answer;
pub use note::{Take, TickNote};
use thiserror::Error;

/// The two picture formats of H.261 (3.1): 176 by 144 and 352 by 288 luminance samples.
#[derive(Clone, Copy, Debug, PartialEq, Eq)]
pub enum Format {
    Qcif,
    Cif,
}

/// The four places of the composed picture: top left, top right, bottom left, bottom right.
#[derive(Clone, Copy, Debug, PartialEq, Eq)]
pub enum Quad {
    One,
    Two,
    Three,
    Four,
}

impl Quad {
    /// The place's number, from 1 to 4.
    pub fn number(self) -> u8
        ensures { result ≡ number_of self }
    {
        match self {
            Quad::One => 1,
            Quad::Two => 2,
            Quad::Three => 3,
            Quad::Four => 4,
        }
    }
}

/// The kinds of macroblock: the rows of the table of MTYPE (H.261, 4.2.3.2), in its order.
#[derive(Clone, Copy, Debug, PartialEq, Eq)]
pub enum MbKind {
    Intra,
    IntraQuant,
    Inter,
    InterQuant,
    Mc,
    McCoded,
    McQuant,
    McFil,
    McFilCoded,
    McFilQuant,
}

/// Why the bits of a picture are refused.
#[derive(Clone, Copy, Debug, PartialEq, Eq)]
pub enum Why {
    /// The bits do not begin with a picture start code, nor are they the front of one.
    NoStart,
    /// The picture type names the other format.
    WrongFormat,
    /// The still picture mode (HI_RES) is on.
    StillImage,
    /// The group number is none of the format, or not above the last one.
    BadGroup,
    /// A quantiser is 0.
    BadQuant,
    /// The picture is longer than its format allows.
    TooLong,
    /// No word that may stand here begins the bits that are left.
    NoCode,
    /// The bits end inside a word that may stand here.
    Cut,
    /// The macroblock address exceeds 33.
    BadAddress,
    /// No value of the vector's code gives a component from -15 to 15.
    BadVector,
    /// The vector refers to samples outside the picture area.
    VectorOutside,
    /// The INTRADC code is one of the two that are forbidden.
    BadDc,
    /// An escape carries one of the two forbidden levels.
    BadLevel,
    /// A coefficient stands past the 64th of its block.
    TooMany,
}

/// The first fault of a picture's bits: its reason, and the first bit of the element at fault, counted from the
/// first bit that was read.
#[derive(Clone, Copy, Debug, PartialEq, Eq, Error)]
#[error("{why:?} at bit {place}")]
pub struct Fault {
    pub place: u32,
    pub why: Why,
}

/// Where a macroblock stands in the bits, and the state in which it leaves its group.
#[derive(Clone, Copy, Debug, Default, PartialEq, Eq)]
pub struct Mark {
    /// The place of the first bit.
    pub at: u32,
    /// The number of bits.
    pub len: u32,
    /// The number of the group.
    pub group: u8,
    /// The address in the group, from 1 to 33.
    pub address: u8,
    /// The quantiser in effect after it.
    pub quant_after: u8,
    /// The vector's horizontal component, 0 where the macroblock has none.
    pub h_after: i8,
    /// The vector's vertical component, 0 where the macroblock has none.
    pub v_after: i8,
    /// Whether it is Intra.
    pub intra: bool,
}
