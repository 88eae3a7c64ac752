// The bound itself, stopped above the limit.
ghost use Rattle.std.specs.Prelude.{◌≡◌, ◌+◌};
ghost use Rattle.rules.specs.Lists.{below, keep, sum_over};
ghost use Rattle.rules.specs.Chart as fields_of;
ghost use Rattle.rules.specs.Bound as rules;
ghost use Rattle.chart.specs.Read.{kind_of, number_of};
ghost use Rattle.bound.specs.Sums.{capped, weight_on, state_run};

use crate::weights::Sums;
use crate::{sums, weights};
use chart::Chart;
use chart::segments::Source;
use rules::numbers::{SegmentNo, StateNo};

// What leaving and entering every state once costs, and every transition action: G.
fn moves(chart: &Chart) -> u32
    ensures { result ≡ capped (rules.G chart.now) }
{
    let mut sum = 0;
    for n in 0..chart.header().states {
        let s = StateNo(n);
        let entry = chart.entry(s).count as u32;
        let exit = chart.exit(s).count as u32;
        sum = sums::plus(sum, 2 + entry + exit);
    }
    for n in 0..chart.header().segments {
        let acted = chart.transition_action(SegmentNo(n)).count as u32;
        sum = sums::plus(sum, acted);
    }
    sum
}

// W of the segments that start there.
fn edge(chart: &Chart, sums: &Sums, source: Source) -> u32
    ensures { result ≡ capped (sum_over (weight_on chart.now sums.now) (keep (fields_of.starts_at chart.now (kind_of source) (number_of source)) (below (fields_of.segments chart.now)))) }
{
    let mut sum = 0;
    for n in 0..chart.header().segments {
        let t = SegmentNo(n);
        if chart.source(t) == Some(source) {
            sum = sums::plus(sum, weights::weight(chart, sums, t));
        }
    }
    sum
}

// One state's run, and all that a path from it can move.
fn state(chart: &Chart, sums: &Sums, moves: u32, s: StateNo) -> u32
    ensures { result ≡ capped (state_run chart.now sums.now s.0 + moves) }
{
    let during = chart.during(s).count as u32;
    let outer = edge(chart, sums, Source::Outer(s));
    let inner = edge(chart, sums, Source::Inner(s));
    let run = sums::plus(sums::plus(1 + during, outer), inner);
    sums::plus(run, moves)
}

pub fn bound(chart: &Chart) -> u32
    ensures { result ≡ capped (rules.bound chart.now) }
{
    crate::know_bytes(chart.bytes());
    let sums = weights::of_junctions(chart);
    let moves = moves(chart);
    let mut sum = 0;
    for s in 0..chart.header().states {
        sum = sums::plus(sum, state(chart, &sums, moves, StateNo(s)));
    }
    sum
}
