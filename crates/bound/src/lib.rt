// The bound of a chart, as the paper sums it from the chart's tables, and refusals 21 to 23.
#![tactic(auto)]

mod sums; // sums that stop above the largest bound
mod loops; // whether segments lead from a junction back to it
mod weights; // what trying a segment and all that it leads to can cost
mod whole; // the bound itself

ghost use Rattle.std.specs.Prelude.{◌≡◌, ℕ, ◌<◌};
ghost use Rattle.std.proofs.Math.Bool as B;
ghost use Rattle.rules.specs.Bytes.{byte};
ghost use Rattle.rules.specs.Lists.{below, every};
ghost use Rattle.rules.specs.Chart as fields_of;
ghost use Rattle.rules.specs.Accept.{is_send};
ghost use Rattle.rules.specs.Bound as rules;
ghost use Rattle.bound.specs.Sums.{bounded_of, bound_answer};

use chart::{Chart, instructions, places};
use doing::Counts;
use rules::numbers::JunctionNo;
use rules::refusals::Refusal;

// Does nothing. A chart's model is a list of numbers; behind a call of this a proof knows that they are bytes, so that each has a
// place in a table.
fn know_bytes(bytes: &[u8])
    ensures { (i : ℕ) → byte bytes.now i < 256 }
{
    let _ = bytes;
}

fn is_send(chart: &Chart, i: u16) -> bool
    ensures { result ≡ is_send (fields_of.instruction chart.now i).op }
{
    instructions::is_send(chart.bytes(), places::instruction(chart.header(), i))
}

fn sends_nowhere(chart: &Chart) -> bool
    ensures { result ≡ every (λ i. B.not (is_send (fields_of.instruction chart.now i).op)) (below (fields_of.instructions chart.now)) }
{
    (0..chart.header().instructions).all(|i| !is_send(chart, i))
}

fn loops_nowhere(chart: &Chart) -> bool
    ensures { result ≡ every (λ j. B.not (rules.loops chart.now j)) (below (fields_of.junctions chart.now)) }
{
    (0..chart.header().junctions).all(|j| !loops::loops(chart, JunctionNo(j)))
}

// The bound, or why there is none: 21 to 23.
pub fn bound(chart: &Chart) -> Result<u32, Refusal>
    ensures { bounded_of result ≡ bound_answer chart.now }
{
    if !sends_nowhere(chart) {
        return Err(Refusal::Sends);
    }
    if !loops_nowhere(chart) {
        return Err(Refusal::Loop);
    }
    let units = whole::bound(chart);
    if Counts::MOST_UNITS < units {
        return Err(Refusal::BoundTooLarge);
    }
    Ok(units)
}
