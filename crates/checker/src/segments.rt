// The rules of segments.
ghost use Rattle.std.specs.Prelude.{◌≡◌, ◌&&◌, ltb};
ghost use Rattle.rules.specs.Lists.{below, every};
ghost use Rattle.rules.specs.Chart.{states, junctions, segments, source_kind, source, destination_kind, destination};
ghost use Rattle.rules.specs.Accept as rules;

use chart::Chart;
use chart::segments::{End, Source};
use rules::numbers::{JunctionNo, SegmentNo, StateNo};

// No segment starts or ends at the root.
fn state_end(chart: &Chart, s: StateNo) -> bool
    ensures { result ≡ ltb 0 s.0 && ltb s.0 (states chart.now) }
{
    0 < s.0 && s.0 < chart.header().states
}

fn junction_end(chart: &Chart, j: JunctionNo) -> bool
    ensures { result ≡ ltb j.0 (junctions chart.now) }
{
    j.0 < chart.header().junctions
}

fn source_right(chart: &Chart, t: SegmentNo) -> bool
    ensures { result ≡ rules.end_right chart.now 2 (source_kind chart.now t.0) (source chart.now t.0) }
{
    match chart.source(t) {
        Some(Source::Outer(s)) => state_end(chart, s),
        Some(Source::Inner(s)) => state_end(chart, s),
        Some(Source::Junction(j)) => junction_end(chart, j),
        None => false,
    }
}

fn destination_right(chart: &Chart, t: SegmentNo) -> bool
    ensures { result ≡ rules.end_right chart.now 1 (destination_kind chart.now t.0) (destination chart.now t.0) }
{
    match chart.destination(t) {
        Some(End::State(s)) => state_end(chart, s),
        Some(End::Junction(j)) => junction_end(chart, j),
        None => false,
    }
}

#[tactic(auto, unfolding(rules::specs::Accept::segment_right))]
fn segment_right(chart: &Chart, t: SegmentNo) -> bool
    ensures { result ≡ rules.segment_right chart.now t.0 }
{
    source_right(chart, t) && destination_right(chart, t) && chart.event(t) <= chart.header().events
}

pub fn right(chart: &Chart) -> bool
    ensures { result ≡ every (rules.segment_right chart.now) (below (segments chart.now)) }
{
    (0..chart.header().segments).all(|t| segment_right(chart, SegmentNo(t)))
}
