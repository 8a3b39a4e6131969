//! Laws of every legal history of a conference, whoever posted, ordered and ticked, and in whatever order. Each function
//! does nothing; its contract is the law, whose words stand in `specs/` of `pel_model`.
#![tactic(auto)]

mod laws;

pub use laws::{headline, passed_where_it_stands, tenancies};
