// Who is above whom, and the children of a state.
ghost use Rattle.std.specs.Prelude.{◌≡◌};
ghost use Rattle.rules.specs.Lists.{is_in};
ghost use Rattle.rules.specs.Chart as rules;
ghost use Rattle.chart.specs.Read.{children_from, first_state};

use crate::states;
use rules::headers::Header;
use rules::numbers::StateNo;

// Whether a is s, or is above s.
pub fn over(chart: &[u8], a: StateNo, s: StateNo) -> bool
    ensures { result ≡ rules.over chart.now a.0 s.0 }
{
    let mut at = s;
    for _ in 0..StateNo::DEEPEST {
        if at == a {
            return true;
        }
        if at.0 == 0 {
            return false;
        }
        at = states::parent(chart, at);
    }
    at == a
}

// The first child of p from a number on.
pub fn child(chart: &[u8], h: Header, p: StateNo, from: u8) -> Option<StateNo>
    ensures { result ≡ first_state (children_from chart.now h from p.0) }
{
    (from..h.states)
        .find(|s| states::parent(chart, StateNo(*s)) == p)
        .map(StateNo)
}

// Whether s is a child of p: the root is nobody's.
pub fn is_child(chart: &[u8], h: Header, s: StateNo, p: StateNo) -> bool
    ensures { result ≡ is_in s.0 (children_from chart.now h 1 p.0) }
{
    let inside = (0 < s.0) & (s.0 < h.states);
    inside & (states::parent(chart, s) == p)
}
