//! The reference decoder: what a decoder of H.261 shows after each picture, exactly, with this project's own transform.
#![tactic(auto)]

mod frames;
mod macroblock;
mod picture;
mod prediction;
mod residual;
mod sides;
mod store;
mod transform;

pub use frames::decode_frames;
pub use store::Store;
pub use transform::fixed;

#[cfg(test)]
mod frames_tests;
#[cfg(test)]
mod pictures;
#[cfg(test)]
mod tests;
