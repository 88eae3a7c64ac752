// Entering: active, the entry action, then the children.
ghost use Rattle.std.specs.Prelude.{◌≡◌};
ghost use Rattle.rules.specs.Fire as rules;
ghost use Rattle.doing.specs.Held.{held, Same};
ghost use Rattle.doing.specs.Outcomes.{outcome_of};
ghost use Rattle.moves.specs.Steps.{named, arriving, chosen_child};

use blocks::action;
use chart::Chart;
use doing::Now;
use rules::items::Item;
use rules::numbers::StateNo;
use rules::refusals::Refusal;

// The child of s on the way to the target.
fn on_the_way(chart: &Chart, s: StateNo, target: StateNo) -> Option<StateNo>
    ensures { result ≡ named (rules.on_the_way chart.now s.0 target.0) }
{
    (1..chart.header().states)
        .map(|n| StateNo(n))
        .find(|k| chart.parent(*k) == s && chart.over(*k, target))
}

// Of a one-of state: the child on the way, else the recorded one, which is 0 in the image where there is none, else initial.
fn chosen(chart: &Chart, now: &Now, s: StateNo, target: StateNo) -> StateNo
    ensures { result.0 ≡ chosen_child chart.now s.0 target.0 (held now.now).image }
{
    if let Some(aimed) = on_the_way(chart, s, target) {
        return aimed;
    }
    let recorded = now.recorded(s);
    if recorded.0 != 0 {
        return recorded;
    }
    chart.initial(s)
}

// What comes before its children are entered.
fn arrive(chart: &Chart, now: &mut Now, s: StateNo) -> Result<(), Refusal>
    ensures came { outcome_of result (held now.new) ≡ arriving chart.now s.0 (held now.old) }
    ensures same { Same now.old now.new }
{
    now.pay()?;
    now.activate(s);
    now.note(Item::Entered(s))?;
    action::perform(chart, chart.entry(s), now)
}

// A state is entered: depth is how many levels it can have, itself and those below.
#[cycle(enter_enter_children)]
pub fn enter(
    chart: &Chart,
    now: &mut Now,
    depth: u8,
    target: StateNo,
    s: StateNo,
) -> Result<(), Refusal>
    ensures came { outcome_of result (held now.new) ≡ rules.enter chart.now depth target.0 s.0 (held now.old) }
    ensures same { Same now.old now.new }
{
    if depth == 0 {
        return Ok(());
    }
    arrive(chart, now, s)?;
    enter_children(chart, now, depth - 1, target, s)
}

// Of an all-of state each child in ascending number, of a one-of state the chosen one: depth is how many levels each can have.
#[cycle(enter_enter_children)]
pub fn enter_children(
    chart: &Chart,
    now: &mut Now,
    depth: u8,
    target: StateNo,
    s: StateNo,
) -> Result<(), Refusal>
    ensures came { outcome_of result (held now.new) ≡ rules.enter_each chart.now (rules.enter chart.now depth target.0) target.0 s.0 (held now.old) }
    ensures same { Same now.old now.new }
{
    if chart.is_one_of(s) {
        let k = chosen(chart, now, s, target);
        return enter(chart, now, depth, target, k);
    }
    for n in 1..chart.header().states {
        let k = StateNo(n);
        if chart.parent(k) == s {
            enter(chart, now, depth, target, k)?;
        }
    }
    Ok(())
}
