// Whether a segment passes: its event, then its condition.
ghost use Rattle.std.specs.Prelude.{◌≡◌};
ghost use Rattle.rules.specs.Search as rules;
ghost use Rattle.doing.specs.Held.{held, Same};
ghost use Rattle.doing.specs.Outcomes.{outcome_of};
ghost use Rattle.engine.specs.Told.{tested};

use blocks::action;
use blocks::stack::Stack;
use chart::Chart;
use doing::Now;
use rules::numbers::SegmentNo;
use rules::refusals::Refusal;

// An empty condition holds.
fn holds(chart: &Chart, now: &mut Now, t: SegmentNo) -> Result<bool, Refusal>
    ensures came { outcome_of result (held now.new) ≡ rules.holds chart.now t.0 (held now.old) }
    ensures same { Same now.old now.new }
{
    let condition = chart.condition(t);
    if condition.count == 0 {
        return Ok(true);
    }
    let mut stack = Stack::new();
    action::run(chart.code(condition), condition.count, &mut stack, now)?;
    Ok(stack.top() != 0)
}

// A segment is tried, and paid for before: its event is 0 or the current one, and its condition, performed only then, holds.
pub fn passes(chart: &Chart, now: &mut Now, event: u8, t: SegmentNo) -> Result<bool, Refusal>
    ensures came { outcome_of result (held now.new) ≡ tested chart.now event t.0 (held now.old) }
    ensures same { Same now.old now.new }
{
    now.pay()?;
    let wanted = chart.event(t);
    if wanted == 0 || wanted == event {
        return holds(chart, now, t);
    }
    Ok(false)
}
