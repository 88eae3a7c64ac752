// A variable's initial value.
ghost use Rattle.std.specs.Prelude.{◌≡◌, ◌+◌};
ghost use Rattle.rules.specs.Bytes.{field};
ghost use Rattle.chart.specs.Places.{variable_place};

use crate::places;
use fields::Field;
use rules::headers::Header;

pub fn initial_value(chart: &[u8], h: Header, v: u8) -> u32
    ensures { result ≡ field 4 chart.now (variable_place h v + 2) }
{
    u32::at(chart, places::variable(h, v) as usize + 2)
}
