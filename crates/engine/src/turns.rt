// Whose turn it is in a run: each active state below the one that the run began at, one after the other. For any header, not
// the chart's own alone, as the contract of `next` says.
ghost use Rattle.std.specs.Prelude.{◌≡◌};
ghost use Rattle.rules.specs.Lists.{first};
ghost use Rattle.rules.specs.Image.{is_active};
ghost use Rattle.chart.specs.Read.{children_from};
ghost use Rattle.engine.specs.Turns.{next_from, turn_of, next_turn};

use chart::states;
use image::active;
use rules::headers::Header;
use rules::numbers::StateNo;

// A state, and how many levels it is below the one that the run began at.
#[derive(Clone, Copy, PartialEq, Eq, Debug)]
pub struct Place {
    pub state: StateNo,
    pub depth: u8,
}

// The first active child of p from a number on; 0 if there is none, as the rules' `first` has it.
fn active_child(chart: &[u8], h: Header, image: &[u8], p: StateNo, from: u8) -> StateNo
    ensures { result.0 ≡ first (is_active image.now) (children_from chart.now h from p.0) }
{
    for k in from..h.states {
        let s = StateNo(k);
        if states::parent(chart, s) == p && active::is_active(image, s) {
            return s;
        }
    }
    StateNo(0)
}

// The number from which on the children of the parent of s have their turn after s: no other, where one is active at a time.
fn following(chart: &[u8], h: Header, parent: StateNo, s: StateNo) -> u8
    ensures { result ≡ next_from chart.now h parent.0 s.0 }
{
    if states::is_one_of(chart, parent) || h.states <= s.0 {
        h.states
    } else {
        s.0 + 1
    }
}

// The next after p, whose children have their turn from a number on, p being so many levels below the state that the run began
// at: a child of p, else one that follows p, else one that follows the parent of p, and so on.
pub fn next(chart: &[u8], h: Header, image: &[u8], p: StateNo, from: u8, depth: u8) -> Option<Place>
    ensures { turn_of result ≡ next_turn chart.now h image.now depth p.0 from }
{
    let mut at = p;
    let mut k = from;
    for below in (0..=depth).rev() {
        if below < StateNo::DEEPEST {
            let state = active_child(chart, h, image, at, k);
            if state.0 != 0 {
                return Some(Place {
                    state,
                    depth: below + 1,
                });
            }
        }
        let parent = states::parent(chart, at);
        k = following(chart, h, parent, at);
        at = parent;
    }
    None
}
