// The kinds of states, with their numbers.
ghost use Rattle.std.specs.Prelude.{◌≡◌};
ghost use Rattle.chart.specs.Read.{kind_named};

#[derive(Clone, Copy, PartialEq, Eq, Debug)]
pub enum Kind {
    Leaf = 0,
    OneOf = 1,
    AllOf = 2,
}

// None has a number that is no kind's.
pub fn named(number: u8) -> Option<Kind>
    ensures { result ≡ kind_named number }
{
    match number {
        0 => Some(Kind::Leaf),
        1 => Some(Kind::OneOf),
        2 => Some(Kind::AllOf),
        _ => None,
    }
}
