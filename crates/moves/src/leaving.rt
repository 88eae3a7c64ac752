// Leaving: the active children first, the highest number first; then the exit action, history, inactive.
ghost use Rattle.std.specs.Prelude.{◌≡◌, ◌&&◌, eqb};
ghost use Rattle.rules.specs.Chart as fields_of;
ghost use Rattle.rules.specs.Image.{is_active};
ghost use Rattle.rules.specs.Doing.{went};
ghost use Rattle.rules.specs.Fire as rules;
ghost use Rattle.doing.specs.Held.{held, Same};
ghost use Rattle.doing.specs.Outcomes.{outcome_of};
ghost use Rattle.moves.specs.Steps.{departing};

use blocks::action;
use chart::Chart;
use doing::Now;
use image::active;
use rules::items::Item;
use rules::numbers::StateNo;
use rules::refusals::Refusal;

// A history parent records s.
fn remember(chart: &Chart, now: &mut Now, s: StateNo)
    ensures came { went tt (held now.new) ≡ rules.parent_records chart.now s.0 (held now.old) }
    ensures same { Same now.old now.new }
{
    let p = chart.parent(s);
    if chart.keeps_history(p) {
        now.record_child(p, s);
    }
}

// What is left to do once its children are left.
fn depart(chart: &Chart, now: &mut Now, s: StateNo) -> Result<(), Refusal>
    ensures came { outcome_of result (held now.new) ≡ departing chart.now s.0 (held now.old) }
    ensures same { Same now.old now.new }
{
    action::perform(chart, chart.exit(s), now)?;
    remember(chart, now, s);
    now.deactivate(s);
    now.note(Item::Left(s))
}

pub fn is_active_child(chart: &Chart, image: &[u8], k: StateNo, s: StateNo) -> bool
    ensures { result ≡ eqb (fields_of.parent chart.now k.0) s.0 && is_active image.now k.0 }
{
    chart.parent(k) == s && active::is_active(image, k)
}

// A state is left: depth is how many levels it can have, itself and those below.
#[cycle(leave_leave_children)]
fn leave(chart: &Chart, now: &mut Now, depth: u8, s: StateNo) -> Result<(), Refusal>
    ensures came { outcome_of result (held now.new) ≡ rules.leave chart.now depth s.0 (held now.old) }
    ensures same { Same now.old now.new }
{
    if depth == 0 {
        return Ok(());
    }
    now.pay()?;
    leave_children(chart, now, depth - 1, s)?;
    depart(chart, now, s)
}

// The active children of s, the highest number first: depth is how many levels each can have.
#[cycle(leave_leave_children)]
pub fn leave_children(chart: &Chart, now: &mut Now, depth: u8, s: StateNo) -> Result<(), Refusal>
    ensures came { outcome_of result (held now.new) ≡ rules.leave_each chart.now (rules.leave chart.now depth) s.0 (held now.old) }
    ensures same { Same now.old now.new }
{
    for n in (1..chart.header().states).rev() {
        let k = StateNo(n);
        if is_active_child(chart, now.image(), k, s) {
            leave(chart, now, depth, k)?;
        }
    }
    Ok(())
}
