//! The head of a letter.
ghost use Rattle.std.specs.Prelude.{◌≡◌, ◌↔◌, IsTrue};
ghost use Rattle.cb_messages.specs.Messages.{head_of, IsHead};

use cb_letters::{Body, Letter};

/// The head of a letter, as it is sent: all but the block.
#[repr(C)]
#[derive(Clone, Copy)]
pub struct Head {
    /// The number of the letter on its lane.
    pub number: u64,
    /// The rank that sends it.
    pub from: u32,
    /// The rank to which it is sent.
    pub to: u32,
    /// What it is about.
    pub tag: u32,
    /// 0 for a sheet, whose lists are sent too; 1 for the news that it was lost; 2 for a close mark.
    pub kind: u32,
    /// The rank at which a lost sheet was lost, otherwise 0.
    pub origin: u32,
    /// 0: the head has no bytes without a meaning.
    pub reserved: u32,
}

impl Head {
    /// The head of a letter.
    pub fn of<P>(letter: &Letter<P>) -> Head
        ensures { result ≡ head_of letter.now }
    {
        let (kind, origin) = match &letter.body {
            Body::Sheet(_) => (0, 0),
            Body::Lost(origin) => (1, u32::from(*origin)),
            Body::Close => (2, 0),
        };
        Head {
            number: letter.number,
            from: u32::from(letter.from),
            to: u32::from(letter.to),
            tag: letter.tag.0,
            kind,
            origin,
            reserved: 0,
        }
    }

    /// Whether it is the head of a letter: its ranks have 16 bits, and its kind is one of the three.
    pub(crate) fn is_whole(&self) -> bool
        ensures { IsTrue result ↔ IsHead self.now }
    {
        let last = u32::from(u16::MAX);
        self.from <= last
            && self.to <= last
            && self.kind <= 2
            && self.origin <= last
            && self.reserved == 0
    }
}
