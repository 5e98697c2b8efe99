//! A message on its way.
use crate::any_process::AnyMessage;
use cb_lists::Columns;
use cb_messages::Head;

/// A message that is to be sent, until it is freed. Its lists stay where they are until then.
#[derive(Drop)]
pub struct Outgoing {
    message: Option<AnyMessage>,
}

impl Outgoing {
    /// A message that is to be sent.
    pub fn new(message: AnyMessage) -> Outgoing {
        Outgoing {
            message: Some(message),
        }
    }

    /// The head and the lists, where they lie. None if the message was freed.
    pub fn parts<'a>(&'a self) -> Option<(Head, Columns<'a>)> {
        match &self.message {
            Some(message) => Some((message.head(), message.lists())),
            None => None,
        }
    }

    /// Frees what the message holds.
    pub fn clear(&mut self) {
        self.message = None;
    }
}
