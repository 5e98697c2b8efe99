//! Letters between processes: each is sent as a head, and the lists of its block where they lie.
//!
//! A [`Message`] is a letter to be sent: it shows the head and lends the lists, without a copy of the entries. What arrives
//! isn't trusted. [`letter_of`] looks at the head, and checks the lists as those of any caller in C, before it makes a block
//! of them. A head and lists that arrive as they were sent make the letter that was sent.
#![tactic(auto)]

mod arrivals;
mod heads;
mod messages;

pub use arrivals::{MessageFault, letter_of};
pub use heads::Head;
pub use messages::Message;
