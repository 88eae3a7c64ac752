// The rules of states, blocks and segments apart, and of junctions.
ghost use Rattle.std.specs.Prelude.{◌≡◌, eqb, leb, ltb};
ghost use Rattle.rules.specs.Lists.{when◌then◌else◌};
ghost use Rattle.rules.specs.Chart.{states, kind, is_one_of, history, junction_parent};
ghost use Rattle.rules.specs.Accept as rules;

use chart::Chart;
use chart::kinds::Kind;
use rules::numbers::{JunctionNo, StateNo};

// Parents come before children, by their numbers; the root is its own.
#[tactic(auto, using(crate::proofs::Chains::choices), unfolding(rules::specs::Accept::parent_right))]
fn parent_right(chart: &Chart, s: StateNo) -> bool
    ensures { result ≡ rules.parent_right chart.now s.0 }
{
    let p = chart.parent(s).0;
    if s.0 == 0 { p == 0 } else { p < s.0 }
}

// 0 to 2 are the kinds of states.
fn kind_right(chart: &Chart, s: StateNo) -> bool
    ensures { result ≡ leb (kind chart.now s.0) 2 }
{
    chart.kind(s).is_some()
}

fn is_leaf(chart: &Chart, s: StateNo) -> bool
    ensures { result ≡ eqb (kind chart.now s.0) 0 }
{
    chart.kind(s) == Some(Kind::Leaf)
}

// A leaf has no child, and every other state has one.
fn children_right(chart: &Chart, s: StateNo) -> bool
    ensures { result ≡ rules.children_right chart.now s.0 }
{
    is_leaf(chart, s) == chart.first_child(s).is_none()
}

#[tactic(auto, using(crate::proofs::Chains::choices), unfolding(rules::specs::Accept::initial_right))]
fn initial_right(chart: &Chart, s: StateNo) -> bool
    ensures { result ≡ rules.initial_right chart.now s.0 }
{
    let initial = chart.initial(s);
    if chart.is_one_of(s) {
        chart.is_child(initial, s)
    } else {
        initial.0 == 0
    }
}

// Only a one-of state keeps history.
#[tactic(auto, using(crate::proofs::Chains::choices))]
fn most_history(chart: &Chart, s: StateNo) -> u8
    ensures { result ≡ (when is_one_of chart.now s.0 then 1 else 0) }
{
    if chart.is_one_of(s) { 1 } else { 0 }
}

fn history_right(chart: &Chart, s: StateNo) -> bool
    ensures { result ≡ leb (history chart.now s.0) (when is_one_of chart.now s.0 then 1 else 0) }
{
    chart.history(s) <= most_history(chart, s)
}

#[tactic(auto, unfolding(rules::specs::Lists::every, rules::specs::Lists::all, rules::specs::Accept::state_right))]
fn state_right(chart: &Chart, s: StateNo) -> bool
    ensures { result ≡ rules.state_right chart.now s.0 }
{
    kind_right(chart, s)
        && parent_right(chart, s)
        && chart.over(StateNo(0), s)
        && children_right(chart, s)
        && initial_right(chart, s)
        && history_right(chart, s)
}

fn junction_right(chart: &Chart, j: JunctionNo) -> bool
    ensures { result ≡ ltb (junction_parent chart.now j.0) (states chart.now) }
{
    chart.junction_parent(j).0 < chart.header().states
}

pub fn right(chart: &Chart) -> bool
    ensures { result ≡ rules.states_right chart.now }
{
    let h = chart.header();
    (0..h.states).all(|s| state_right(chart, StateNo(s)))
        && (0..h.junctions).all(|j| junction_right(chart, JunctionNo(j)))
}
