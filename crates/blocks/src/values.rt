// Arithmetic on signed 32-bit values: the result, or none where it is outside or the divisor is 0.
ghost use Rattle.std.specs.Prelude.{◌≡◌};
ghost use Rattle.rules.specs.Bytes.{truth, is_zero};
ghost use Rattle.blocks.specs.Values.{remainder_of, combined};

// The ops that take two values.
#[derive(Clone, Copy, PartialEq, Eq, Debug)]
pub enum Binary {
    Add,
    Subtract,
    Multiply,
    Quotient,
    Remainder,
    Less,
    Equal,
}

// With the sign of the dividend. It always fits: by -1 it is 0, where `checked_rem` has none for the least value.
fn remainder(x: i32, y: i32) -> Option<i32>
    ensures { result ≡ remainder_of x y }
{
    if y == 0 {
        return None;
    }
    Some(x.wrapping_rem(y))
}

// A test as a value.
pub fn truth(test: bool) -> i32
    ensures { result ≡ truth test }
{
    test as i32
}

pub fn is_zero(x: i32) -> bool
    ensures { result ≡ is_zero x }
{
    x == 0
}

// A binary op on lower and top. A quotient goes towards zero.
pub fn combine(op: Binary, x: i32, y: i32) -> Option<i32>
    ensures { result ≡ combined op x y }
{
    match op {
        Binary::Add => x.checked_add(y),
        Binary::Subtract => x.checked_sub(y),
        Binary::Multiply => x.checked_mul(y),
        Binary::Quotient => x.checked_div(y),
        Binary::Remainder => remainder(x, y),
        Binary::Less => Some(truth(x < y)),
        Binary::Equal => Some(truth(x == y)),
    }
}
