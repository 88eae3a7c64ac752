// The checker of charts: any bytes whatever, taken as a chart or refused, and then by the first refusal that applies.
#![tactic(auto)]

mod records; // each record's mark and zero bytes
mod states; // the rules of states and junctions
mod segments; // those of segments
mod ops; // what an op takes, gives and does
mod instructions; // the rules of instructions
mod blocks; // those of blocks

ghost use Rattle.std.specs.Prelude.{◌≡◌, eqb, length, IfOk};
ghost use Rattle.rules.specs.Types.{fits_of};
ghost use Rattle.rules.specs.Chart.{total};
ghost use Rattle.rules.specs.Accept as rules;
ghost use Rattle.chart.specs.Places.{header_of};
ghost use Rattle.checker.specs.Meaning.{refusal_number};

use chart::{Chart, places};
use rules::headers::Header;
use rules::refusals::Refusal;

fn counts_right(chart: &Chart) -> bool
    ensures { result ≡ fits_of (header_of chart.now) }
{
    chart.header().checked().is_some()
}

fn length_right(chart: &Chart) -> bool
    ensures { result ≡ eqb (length chart.now) (total chart.now) }
{
    chart.bytes().len() == places::total(chart.header()) as usize
}

#[tactic(auto, using(crate::proofs::Chains::refusals), unfolding(rules::specs::Accept::chart_refusal))]
pub fn check<'a>(chart: &'a [u8]) -> Result<Chart<'a>, Refusal>
    ensures number { refusal_number result ≡ rules.chart_refusal chart.now }
    ensures whole { IfOk result (λ taken. taken ≡ chart.now) }
{
    if !Header::is_whole(chart.len()) {
        return Err(Refusal::ShortChart);
    }
    let chart = Chart::read(chart);
    if !records::header(&chart) {
        return Err(Refusal::ChartMark);
    }
    if !counts_right(&chart) {
        return Err(Refusal::Count);
    }
    if !length_right(&chart) {
        return Err(Refusal::ChartLength);
    }
    if !records::right(&chart) {
        return Err(Refusal::Record);
    }
    if !states::right(&chart) {
        return Err(Refusal::State);
    }
    if !segments::right(&chart) {
        return Err(Refusal::Segment);
    }
    if !blocks::right(&chart) {
        return Err(Refusal::Block);
    }
    if !instructions::right(&chart) {
        return Err(Refusal::Instruction);
    }
    if !blocks::every_stack_right(&chart) {
        return Err(Refusal::StackUse);
    }
    if !blocks::nothing_barred_anywhere(&chart) {
        return Err(Refusal::Barred);
    }
    Ok(chart)
}

// The number of the refusal, and 0 where the chart is taken.
pub fn refusal(chart: &[u8]) -> u8
    ensures { result ≡ rules.chart_refusal chart.now }
{
    match check(chart) {
        Ok(_) => 0,
        Err(refusal) => refusal.number(),
    }
}
