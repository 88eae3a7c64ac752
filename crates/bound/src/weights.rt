// What trying a segment can cost, with all that it leads to: W, for the segments of each junction at once, a segment further in
// each round. A shared junction counts each time that it is led to.
ghost use Rattle.std.specs.Prelude.{◌≡◌};
ghost use Rattle.rules.specs.Chart.{junctions};
ghost use Rattle.bound.specs.Sums.{capped, weight_on, round_of, weights_within};

use crate::sums;
use chart::Chart;
use chart::segments::{End, Source};
use rules::numbers::{JunctionNo, SegmentNo};

// A sum for each junction, by its number.
pub type Sums = [u32; JunctionNo::PLACES];

// A segment's own, and the sum of the junction that it leads to.
pub fn weight(chart: &Chart, sums: &Sums, t: SegmentNo) -> u32
    ensures { result ≡ capped (weight_on chart.now sums.now t.0) }
{
    let tested = chart.condition(t).count as u32;
    let acted = chart.condition_action(t).count as u32;
    let own = 1 + tested + acted;
    match chart.end(t) {
        End::State(_) => own,
        End::Junction(j) => sums::plus(own, sums[j.0 as usize]),
    }
}

// The sums of each junction's segments, by the sums a segment less far.
fn round(chart: &Chart, before: &Sums) -> Sums
    ensures { result ≡ round_of chart.now before.now }
{
    let mut sums = [0; JunctionNo::PLACES];
    for n in 0..chart.header().segments {
        let t = SegmentNo(n);
        if let Some(Source::Junction(j)) = chart.source(t) {
            let place = j.0 as usize;
            sums[place] = sums::plus(sums[place], weight(chart, before, t));
        }
    }
    sums
}

// For each junction the sum of W over its segments, stopped above the limit.
pub fn of_junctions(chart: &Chart) -> Sums
    ensures { result ≡ weights_within chart.now (junctions chart.now) }
{
    crate::know_bytes(chart.bytes());
    let mut sums = [0; JunctionNo::PLACES];
    for _ in 0..chart.header().junctions {
        sums = round(chart, &sums);
    }
    sums
}
