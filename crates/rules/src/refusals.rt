// Why a call is refused: the paper's numbers, by name.
ghost use Rattle.std.specs.Prelude.{◌≡◌};
ghost use Rattle.rules.specs.Types.{number_of};

#[derive(Clone, Copy, PartialEq, Eq, Debug)]
pub enum Refusal {
    ShortChart = 1, // the chart is under 12 bytes
    ChartMark = 2, // the CH mark is wrong
    Count = 3, // a count of the header is outside its range
    ChartLength = 4, // the length is not the total
    Record = 5, // another mark is wrong, or a zero byte is not zero
    State = 6, // a rule of states is broken, or a junction's parent is no state
    Segment = 7, // a segment's kind, number or event does not exist
    Block = 8, // a block runs past the instructions, or is one that may not be
    Instruction = 9, // an op or an operand does not exist
    StackUse = 10, // a block's stack use is wrong
    Barred = 11, // a store, raise or send where it is barred
    NoPart = 12, // the board does not have the lift's part
    Image = 13, // the image is not accepted
    Event = 14, // the event is not one of the chart's
    Allowance = 15, // the allowance is over 1,000,000
    NoUnit = 16, // the next unit is not there
    Arithmetic = 17, // a result is outside 32 bits, or a divisor is 0
    NinthSend = 18, // 8 sends are open
    LongPath = 19, // a 129th segment would pass on one path
    NoRoom = 20, // there is no room for an item
    Sends = 21, // no bound: an instruction is a send
    Loop = 22, // no bound: segments lead from a junction back to it
    BoundTooLarge = 23, // no bound: it is over 1,000,000
}

impl Refusal {
    pub fn number(self) -> u8
        ensures { result ≡ number_of self }
    {
        self as u8
    }
}
