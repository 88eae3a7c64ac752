// Sums that stop above the largest bound, so that none is too large whatever a chart asks for.
ghost use Rattle.std.specs.Prelude.{◌≡◌, ◌+◌};
ghost use Rattle.bound.specs.Sums.{capped};

use doing::Counts;

// Where a sum stops.
const CAP: u32 = Counts::MOST_UNITS + 1;

pub fn plus(a: u32, b: u32) -> u32
    ensures { result ≡ capped (a + b) }
{
    a.saturating_add(b).min(CAP)
}
