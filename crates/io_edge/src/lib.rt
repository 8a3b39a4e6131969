//! The edge to the outside: octets come from a `Source` and go to a `Sink`, and each has a count of the faults that
//! it met. Contracts see what an object has left or has written, where the object tells it. There are objects in
//! memory, of which everything is told and which fail on demand, and objects over `std::io`, of which nothing is.
#![tactic(auto)]

mod allowance;
mod edges;
mod line_ticker;
mod memory;
mod openers;
mod standard;
mod tickers;
mod whole;

pub use allowance::{Allowance, Pause, Shortfall};
pub use edges::{Failed, Sink, Source};
pub use line_ticker::LineTicker;
pub use memory::{MemSink, MemSource};
pub use openers::{FileHouse, MemHouse, Opener};
pub use standard::{ReadEdge, WriteEdge};
pub use tickers::{MemTicker, Ticker};
pub use whole::put_all;

#[cfg(test)]
mod tests;
