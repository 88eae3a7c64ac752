// Firing a path: the arena's children are left, the transition actions performed, the arena's children entered.
ghost use Rattle.std.specs.Prelude.{◌≡◌};
ghost use Rattle.rules.specs.Doing.{each};
ghost use Rattle.rules.specs.Fire as rules;
ghost use Rattle.doing.specs.Held.{held, Same};
ghost use Rattle.doing.specs.Outcomes.{outcome_of};

use crate::{arena, entering, leaving};
use blocks::action;
use chart::Chart;
use doing::Now;
use rules::items::Item;
use rules::numbers::{SegmentNo, StateNo};
use rules::refusals::Refusal;

// A segment's transition action, after its item.
fn transit(chart: &Chart, now: &mut Now, t: SegmentNo) -> Result<(), Refusal>
    ensures came { outcome_of result (held now.new) ≡ rules.transit chart.now t.0 (held now.old) }
    ensures same { Same now.old now.new }
{
    now.note(Item::Transition(t))?;
    action::perform(chart, chart.transition_action(t), now)
}

// Those of a path, in path order.
fn transit_path(chart: &Chart, now: &mut Now, path: &[u16]) -> Result<(), Refusal>
    ensures came { outcome_of result (held now.new) ≡ each (rules.transit chart.now) path.now (held now.old) }
    ensures same { Same now.old now.new }
{
    for t in path {
        transit(chart, now, SegmentNo(*t))?;
    }
    Ok(())
}

// A path of segments from the source state to the target is fired.
pub fn fire(
    chart: &Chart,
    now: &mut Now,
    source: StateNo,
    target: StateNo,
    path: &[u16],
) -> Result<(), Refusal>
    ensures came { outcome_of result (held now.new) ≡ rules.fire chart.now source.0 target.0 path.now (held now.old) }
    ensures same { Same now.old now.new }
{
    let ground = arena::arena(chart, source, target, path);
    leaving::leave_children(chart, now, StateNo::LEVELS, ground)?;
    transit_path(chart, now, path)?;
    entering::enter_children(chart, now, StateNo::LEVELS, target, ground)
}
