// What an op's number means. `Unknown` is an op of the rules, and so no None.
#[derive(Clone, Copy, PartialEq, Eq, Debug)]
pub enum Op {
    Push = 0,
    Load = 1,
    Store = 2,
    Add = 3,
    Subtract = 4,
    Multiply = 5,
    Quotient = 6,
    Remainder = 7,
    Less = 8,
    Equal = 9,
    Not = 10,
    Raise = 11,
    Send = 12,
    Unknown = 13, // and every number above
}

impl From<u8> for Op {
    ghost use Rattle.std.specs.Prelude.{◌≡◌};
    ghost use Rattle.rules.specs.Chart.{op_of};
    ghost use Rattle.chart.specs.Read.{op_meant};

    ghost from_gives = { λ n op. op_meant op ≡ op_of n };

    #[tactic(auto, unfolding(rules::specs::Chart::op_of))]
    fn from(n: u8) -> Op {
        match n {
            0 => Op::Push,
            1 => Op::Load,
            2 => Op::Store,
            3 => Op::Add,
            4 => Op::Subtract,
            5 => Op::Multiply,
            6 => Op::Quotient,
            7 => Op::Remainder,
            8 => Op::Less,
            9 => Op::Equal,
            10 => Op::Not,
            11 => Op::Raise,
            12 => Op::Send,
            _ => Op::Unknown,
        }
    }
}
