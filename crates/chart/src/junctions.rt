// A junction's field.
ghost use Rattle.std.specs.Prelude.{◌≡◌, ◌+◌};
ghost use Rattle.rules.specs.Bytes.{byte};
ghost use Rattle.chart.specs.Places.{junction_place};

use crate::places;
use fields::Field;
use rules::headers::Header;
use rules::numbers::{JunctionNo, StateNo};

pub fn parent(chart: &[u8], h: Header, j: JunctionNo) -> StateNo
    ensures { result.0 ≡ byte chart.now (junction_place h j.0 + 2) }
{
    StateNo(u8::at(chart, places::junction(h, j) as usize + 2))
}
