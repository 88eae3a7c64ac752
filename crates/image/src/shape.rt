// Demand 3's shape: how many children of each state are active.
ghost use Rattle.std.specs.Prelude.{◌≡◌, ◌<◌, set};
ghost use Rattle.rules.specs.Lists.{when◌then◌else◌, below, every};
ghost use Rattle.rules.specs.Chart.{is_one_of, states};
ghost use Rattle.rules.specs.Image as rules;
ghost use Rattle.image.specs.Counted.{Counted, count_of, one_more};

use crate::active;
use chart::Chart;
use rules::numbers::StateNo;

// How many children a state has, and how many of them are active.
#[derive(Clone, Copy)]
struct Count {
    all: u8,
    active: u8,
}

// The counts of each number that a parent field can have.
#[derive(Drop)]
struct Children([Count; StateNo::PLACES]);

impl Children {
    // Those of a chart, in one walk over its states.
    fn counted(image: &[u8], chart: &Chart) -> Children
        ensures { Counted image.now chart.now result }
    {
        let mut children = Children([Count { all: 0, active: 0 }; StateNo::PLACES]);
        for k in 1..chart.header().states {
            let s = StateNo(k);
            children.add(chart.parent(s), active::is_active(image, s));
        }
        children
    }

    // One more child of p.
    fn add(&mut self, p: StateNo, is_active: bool)
        requires { ((count_of self.old p.0).all < 255) × ((count_of self.old p.0).active < 255) }
        ensures { self.new.0 ≡ set self.old.0 p.0 (one_more is_active (count_of self.old p.0)) }
    {
        let count = &mut self.0[p.0 as usize];
        count.all += 1;
        if is_active {
            count.active += 1;
        }
    }

    // Whether as many children of a state are active as the shape asks.
    fn are_right(&self, image: &[u8], chart: &Chart, s: StateNo) -> bool
        requires { Counted image.now chart.now self.now }
        ensures { result ≡ rules.shape_at image.now chart.now s.0 }
    {
        let count = self.0[s.0 as usize];
        count.active == wanted(image, chart, s, count.all)
    }
}

// How many children of a state are to be active, of so many.
fn wanted(image: &[u8], chart: &Chart, s: StateNo, children: u8) -> u8
    ensures { result ≡ (when rules.is_active image.now s.0 then (when is_one_of chart.now s.0 then 1 else children) else 0) }
{
    if !active::is_active(image, s) {
        return 0;
    }
    if chart.is_one_of(s) {
        return 1;
    }
    children
}

#[tactic(auto, unfolding(rules::specs::Image::shape))]
pub fn is_right(image: &[u8], chart: &Chart) -> bool
    ensures { result ≡ rules.shape image.now chart.now }
{
    if !active::is_active(image, StateNo(0)) {
        return false;
    }
    let children = Children::counted(image, chart);
    (0..chart.header().states).all(|k| children.are_right(image, chart, StateNo(k)))
}
