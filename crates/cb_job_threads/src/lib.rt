//! Work that several threads share.
//!
//! - `apart` does work on the items of a list, each in a thread of its own.
//! - `turns` has numbers that threads take one by one, each when it has time for the next.
//! - `gates` has hooks that a thread passes when it takes a number.
#![tactic(auto)]

pub mod apart;
pub mod gates;
pub mod turns;
