// A step of a lift: the start, or the root is run.
ghost use Rattle.std.specs.Prelude.{◌≡◌};
ghost use Rattle.rules.specs.Run as rules;
ghost use Rattle.doing.specs.Held.{held, Same};
ghost use Rattle.doing.specs.Outcomes.{outcome_of};

use crate::cycle;
use chart::Chart;
use doing::Now;
use moves::entering;
use rules::numbers::StateNo;
use rules::refusals::Refusal;

// The sends that can be open.
const SENDS: u8 = 8;

// If not started, the root is entered; the event is used up.
fn start(chart: &Chart, now: &mut Now) -> Result<(), Refusal>
    ensures came { outcome_of result (held now.new) ≡ rules.start chart.now (held now.old) }
    ensures same { Same now.old now.new }
{
    entering::enter(chart, now, StateNo::LEVELS, StateNo(0), StateNo(0))
}

pub fn step(chart: &Chart, now: &mut Now, event: u8) -> Result<(), Refusal>
    ensures came { outcome_of result (held now.new) ≡ rules.step chart.now event (held now.old) }
    ensures same { Same now.old now.new }
{
    if now.not_started() {
        return start(chart, now);
    }
    cycle::run(chart, now, SENDS, event, StateNo(0))
}
