//! What the macroblocks of a group so far say of the next one.

use pel_model::MbKind;

/// The state between the macroblocks of a group. It begins with address 0, the group's quantiser and no vector.
#[derive(Clone, Copy, Debug, PartialEq, Eq)]
pub struct MbState {
    /// The address of the last macroblock, 0 before the first.
    pub address: u8,
    /// The quantiser in effect.
    pub quant: u8,
    /// The horizontal component of the last macroblock's vector, 0 where it has none.
    pub h: i8,
    /// The vertical component, 0 where the last macroblock has no vector.
    pub v: i8,
}

/// A macroblock up to its vector; `h` and `v` are the predictor, 0 where the kind has no vector.
#[derive(Clone, Copy, Debug, PartialEq, Eq)]
pub struct Front {
    pub address: u8,
    pub kind: MbKind,
    pub quant: u8,
    pub h: i8,
    pub v: i8,
}
