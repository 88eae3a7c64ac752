// A chart's header, from its bytes.
ghost use Rattle.std.specs.Prelude.{◌≡◌};
ghost use Rattle.rules.specs.Types.{made_of};
ghost use Rattle.chart.specs.Places.{header_of};

use fields::Field;
use rules::headers::Header;

// The counts as they stand there, in range or not.
pub fn read(chart: &[u8]) -> Header
    ensures { result ≡ header_of chart.now }
{
    Header {
        states: u8::at(chart, 2),
        junctions: u8::at(chart, 3),
        segments: u16::at(chart, 4),
        variables: u8::at(chart, 6),
        events: u8::at(chart, 7),
        outputs: u8::at(chart, 8),
        instructions: u16::at(chart, 10),
    }
}

// The header, where each count is in its range.
pub fn made(chart: &[u8]) -> Option<Header>
    ensures { result ≡ made_of (header_of chart.now) }
{
    read(chart).checked()
}
