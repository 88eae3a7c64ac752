// The history: the child recorded for each state, 0 for none.
ghost use Rattle.std.specs.Prelude.{◌≡◌};
ghost use Rattle.rules.specs.Lists.{below, every};
ghost use Rattle.rules.specs.Chart.{states};
ghost use Rattle.rules.specs.Image as rules;

use chart::Chart;
use fields::Field;
use rules::images::Image;
use rules::numbers::StateNo;

pub fn recorded(image: &[u8], s: StateNo) -> StateNo
    ensures { result.0 ≡ rules.recorded image.now s.0 }
{
    StateNo(u8::at(image, Image::HISTORY + s.0 as usize))
}

pub fn record_child(image: &mut [u8], p: StateNo, s: StateNo)
    ensures { image.new ≡ rules.record_child image.old p.0 s.0 }
{
    s.0.put(image, Image::HISTORY + p.0 as usize);
}

// Whether a state's record is 0, the image's byte for none, or a child of the state that keeps history.
#[tactic(auto, unfolding(rules::specs::Image::history_sound))]
fn is_sound(image: &[u8], chart: &Chart, s: StateNo) -> bool
    ensures { result ≡ rules.history_sound image.now chart.now s.0 }
{
    let child = recorded(image, s);
    child.0 == 0 || chart.keeps_history(s) && chart.is_child(child, s)
}

pub fn every_sound(image: &[u8], chart: &Chart) -> bool
    ensures { result ≡ every (rules.history_sound image.now chart.now) (below (states chart.now)) }
{
    (0..chart.header().states).all(|s| is_sound(image, chart, StateNo(s)))
}
