//! Forced updating (H.261, 3.4), as laws: functions without a body, whose contracts are the laws.
#![tactic(auto)]

mod laws;

pub use laws::{overdue, updating};
