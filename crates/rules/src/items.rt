// A trace item: what happened, and to which state, segment or output.
ghost use Rattle.std.specs.Prelude.{◌≡◌, ◌+◌, ◌*◌};
ghost use Rattle.rules.specs.Doing.{room_of};
ghost use Rattle.rules.specs.Types.{word_of};

use crate::numbers::{SegmentNo, StateNo};

#[derive(Clone, Copy, PartialEq, Eq, Debug)]
pub enum Item {
    Entered(StateNo),
    Left(StateNo),
    During(StateNo),
    Passed(SegmentNo),
    Transition(SegmentNo),
    Raised(u8),
}

// A kind and a number as the words of a trace have them.
pub fn joined(kind: u8, number: u16) -> u32
    ensures { result ≡ kind * 65536 + number }
{
    let kind = kind as u32;
    let number = number as u32;
    kind * Item::KIND_PLACE + number
}

impl Item {
    pub const SIZE: usize = 4;

    // What a kind is multiplied with in a word.
    pub const KIND_PLACE: u32 = 65_536;

    // Items of one step.
    pub const MOST: usize = 256;

    // The item as it stands in a trace.
    pub fn word(self) -> u32
        ensures { result ≡ word_of self }
    {
        match self {
            Item::Entered(s) => joined(1, s.0 as u16),
            Item::Left(s) => joined(2, s.0 as u16),
            Item::During(s) => joined(3, s.0 as u16),
            Item::Passed(t) => joined(4, t.0),
            Item::Transition(t) => joined(5, t.0),
            Item::Raised(output) => joined(6, output as u16),
        }
    }

    // How many items there is room for in a lent trace.
    pub fn room(bytes: usize) -> usize
        ensures { result ≡ room_of bytes }
    {
        Item::MOST.min(bytes / Item::SIZE)
    }
}
