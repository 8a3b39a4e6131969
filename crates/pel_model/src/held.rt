//! What a lane holds of the items that were posted to it.

/// A held item: its serial, and whether it may be shown whatever was shown before.
#[derive(Drop)]
pub struct Held<T> {
    pub serial: u64,
    pub refresh: bool,
    pub item: T,
}
