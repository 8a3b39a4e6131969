//! The packetiser: the strict text of a CIF picture, cut at macroblocks into RTP packets of H.261 (RFC 4587), each in its
//! frame (RFC 4571).
#![tactic(auto)]

mod atoms;
mod laws;
mod packer;
mod payload;
mod tally;

pub use laws::{
    cuts_are_the_furthest, excluded_bits_are_zeros, marker_on_the_last, packets_fit, packets_go_on,
    pictures_one_by_one, totals_are_small,
};
pub use packer::{Packer, Sent, Settings};
pub use tally::{Tally, takes_in};

#[cfg(test)]
mod tests;
