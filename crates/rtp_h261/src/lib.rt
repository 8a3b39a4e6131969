//! H.261 over RTP (RFC 4587): the payload header, the pictures that the packets of a stream carry, and the reading of a
//! whole stream, of which each loss, each picture and each unit that is no picture is told as it comes.
#![tactic(auto)]

mod depack;
mod laws;
mod payload;
mod stream;
mod teller;
mod unit_end;
mod unit_reader;
mod window;

pub use depack::{Depack, Fed, Unit};
pub use laws::{
    one_header, one_telling, packets_in_order, packets_one_by_one, worked_packets, worked_windows,
};
pub use payload::{PayloadHeader, read_payload, write_payload};
pub use stream::{nothing_read, read_units};
pub use teller::{Teller, put_piece};
pub use unit_end::{UnitEnd, UnitStop, UnitTally};
pub use unit_reader::UnitReader;
pub use window::Window;

#[cfg(test)]
mod tests;
#[cfg(test)]
mod window_tests;
