// The arena: where a path is fired.
ghost use Rattle.std.specs.Prelude.{◌≡◌};
ghost use Rattle.rules.specs.Fire as rules;
ghost use Rattle.moves.specs.Steps.{over_end, over_all};

use chart::Chart;
use chart::segments::End;
use rules::numbers::{SegmentNo, StateNo};

// Whether a is, or is above, the parent of the junction that a segment ends on, if it does not end on a state.
fn over_end(chart: &Chart, a: StateNo, t: SegmentNo) -> bool
    ensures { result ≡ over_end chart.now a.0 t.0 }
{
    match chart.end(t) {
        End::State(_) => true,
        End::Junction(j) => chart.over(a, chart.junction_parent(j)),
    }
}

// Whether a is, or is above, the target and the parent of each junction on the path.
fn over_all(chart: &Chart, a: StateNo, target: StateNo, path: &[u16]) -> bool
    ensures { result ≡ over_all chart.now target.0 path.now a.0 }
{
    chart.over(a, target) && path.iter().all(|t| over_end(chart, a, SegmentNo(*t)))
}

// The lowest state that is, or is above, the source, the target and the parent of each junction on the path: up from the
// source, and the root where there is no other.
fn common(chart: &Chart, source: StateNo, target: StateNo, path: &[u16]) -> StateNo
    ensures { result.0 ≡ rules.common chart.now source.0 target.0 path.now }
{
    let mut at = source;
    for _ in 0..StateNo::LEVELS {
        if at.0 == 0 || over_all(chart, at, target, path) {
            return at;
        }
        at = chart.parent(at);
    }
    StateNo(0)
}

// The arena: that state, or its parent where source, target and it are one.
pub fn arena(chart: &Chart, source: StateNo, target: StateNo, path: &[u16]) -> StateNo
    ensures { result.0 ≡ rules.arena chart.now source.0 target.0 path.now }
{
    let lowest = common(chart, source, target, path);
    if source == target && source == lowest {
        return chart.parent(source);
    }
    lowest
}
