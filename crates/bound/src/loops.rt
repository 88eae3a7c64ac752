// Whether segments lead from a junction back to it.
ghost use Rattle.std.specs.Prelude.{◌≡◌};
ghost use Rattle.rules.specs.Bound as rules;
ghost use Rattle.bound.specs.Flags.{led_to};

use chart::Chart;
use chart::segments::{End, Source};
use rules::numbers::{JunctionNo, SegmentNo};

// Whether each junction is meant, by its number.
type Flags = [bool; JunctionNo::PLACES];

// The junction that a segment leads on to from a flagged one.
fn led_to(chart: &Chart, here: &Flags, t: SegmentNo) -> Option<JunctionNo>
    ensures { result ≡ led_to chart.now here.now t.0 }
{
    let Some(Source::Junction(from)) = chart.source(t) else {
        return None;
    };
    if !here[from.0 as usize] {
        return None;
    }
    let End::Junction(to) = chart.end(t) else {
        return None;
    };
    if to.0 < chart.header().junctions {
        Some(to)
    } else {
        None
    }
}

// Whether segments lead from j back to it: what a segment leads on to from a flagged junction is flagged too, until a round over
// the segments has none that is new. In each round before, one is.
pub fn loops(chart: &Chart, j: JunctionNo) -> bool
    ensures { result ≡ rules.loops chart.now j.0 }
{
    crate::know_bytes(chart.bytes());
    let mut here = [false; JunctionNo::PLACES];
    here[j.0 as usize] = true;
    let junctions = chart.header().junctions;
    for _ in 0..=junctions {
        let mut more = false;
        for t in 0..chart.header().segments {
            if let Some(to) = led_to(chart, &here, SegmentNo(t)) {
                if to == j {
                    return true;
                }
                if !here[to.0 as usize] {
                    here[to.0 as usize] = true;
                    more = true;
                }
            }
        }
        if !more {
            return false;
        }
    }
    false
}
