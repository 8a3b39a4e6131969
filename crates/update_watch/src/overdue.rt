//! What is told of overdue macroblocks.

/// The macroblocks that are overdue at a picture: each is sent in it for the 132nd time one after another without being
/// coded INTRA. The first of them, and how many they are.
#[derive(Clone, Copy, Debug, PartialEq, Eq)]
pub struct Overdue {
    /// The number of the group of blocks, 1 to 12.
    pub group: u8,
    /// The address in the group, 1 to 33.
    pub address: u8,
    /// How many macroblocks are overdue.
    pub places: u16,
}
