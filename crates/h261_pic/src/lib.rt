//! Coded pictures: the strict text of a QCIF or CIF picture, read from bits and put together group by group.
#![tactic(auto)]

mod coded;
mod coming;
mod formats;
mod group;
mod hand;
mod input_headers;
mod laws;
mod limited;
mod parser;

pub use coded::{Coded, GroupView};
pub use hand::Hand;
pub use laws::codings_of_pictures;
pub use parser::parse;

#[cfg(test)]
mod digits;
#[cfg(test)]
mod header_tests;
#[cfg(test)]
mod parser_tests;
