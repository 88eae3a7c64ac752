// The calls that a host makes: a step of a lift, a fresh lift, the bound of a chart. Any bytes whatever are answered by number,
// and a refused call changes no lent byte.
#![tactic(auto)]

mod parts; // what is handed on only when a step goes well

ghost use Rattle.std.specs.Prelude.{◌≡◌, [], ◌*◌, true};
ghost use Rattle.rules.specs.Accept.{chart_refusal};
ghost use Rattle.rules.specs.Image.{accepted};
ghost use Rattle.rules.specs.Calls as rules;
ghost use Rattle.afraulenc.specs.Parts.{packed_of, told_of, stepped_on, part_stepped};

use chart::Chart;
use doing::{Counts, Now};
use engine::stepping;
use image::acceptance;
use rules::images::Image;
use rules::items::Item;
use rules::refusals::Refusal;

// What a step that went well tells: how many items it noted, and the units that it used.
#[derive(Clone, Copy, PartialEq, Eq, Debug)]
struct Went {
    items: u16,
    units: u32,
}

impl Went {
    // As a host is told it: 256 x items + 131,072 x units.
    fn packed(self) -> u64
        ensures { result ≡ packed_of self }
    {
        256 * self.items as u64 + 131072 * self.units as u64
    }
}

// A step on an accepted lift's own part, with an event and an allowance that are in their ranges: on copies, which are handed on
// only when it goes well.
fn step_on_copies(
    chart: &Chart,
    part: &mut [u8],
    trace: &mut [u8],
    event: u8,
    allowance: u32,
) -> Result<Went, Refusal>
    requires taken { chart_refusal chart.now ≡ 0 }
    requires right { accepted part.old chart.now ≡ true }
    ensures { record { answer = told_of packed_of result; board = part.new; trace = trace.new } ≡ stepped_on chart.now part.old trace.old event allowance }
{
    let mut image = [0; Image::SIZE];
    image.copy_from_slice(part);
    let mut items = [0; Item::MOST];
    let room = Item::room(trace.len());
    let counts = Counts {
        units: allowance,
        items: 0,
    };
    let mut now = Now::new(&mut image, &mut items[..room], counts);
    stepping::step(chart, &mut now, event)?;
    let noted = now.items();
    parts::hand_on(trace, noted);
    let went = Went {
        items: noted.len() as u16,
        units: allowance - now.units(),
    };
    part.copy_from_slice(&image);
    Ok(went)
}

// 13 to 15, then the step.
fn step_part(
    chart: &Chart,
    part: &mut [u8],
    trace: &mut [u8],
    event: u32,
    allowance: u32,
) -> Result<Went, Refusal>
    requires { chart_refusal chart.now ≡ 0 }
    ensures { record { answer = told_of packed_of result; board = part.new; trace = trace.new } ≡ part_stepped chart.now part.old trace.old event allowance }
{
    if !acceptance::accepted(part, chart) {
        return Err(Refusal::Image);
    }
    let events = chart.header().events as u32;
    if !(1..=events).contains(&event) {
        return Err(Refusal::Event);
    }
    if Counts::MOST_UNITS < allowance {
        return Err(Refusal::Allowance);
    }
    step_on_copies(chart, part, trace, event as u8, allowance)
}

// 1 to 12, then the part's step.
fn stepped(
    chart: &[u8],
    board: &mut [u8],
    trace: &mut [u8],
    lift: u32,
    event: u32,
    allowance: u32,
) -> Result<Went, Refusal>
    ensures { record { answer = told_of packed_of result; board = board.new; trace = trace.new } ≡ rules.observed (rules.step_call chart.now board.old trace.old lift event allowance) }
{
    let chart = checker::check(chart)?;
    let Image { at } = Image::of_lift(lift, board.len()).ok_or(Refusal::NoPart)?;
    step_part(
        &chart,
        &mut board[at..at + Image::SIZE],
        trace,
        event,
        allowance,
    )
}

// 1 to 12, then the part is made fresh.
fn made_fresh(chart: &[u8], board: &mut [u8], lift: u32) -> Result<(), Refusal>
    ensures { record { answer = told_of (λ _. 0) result; board = board.new; trace = [] } ≡ rules.observed (rules.fresh_call chart.now board.old lift) }
{
    let chart = checker::check(chart)?;
    let Image { at } = Image::of_lift(lift, board.len()).ok_or(Refusal::NoPart)?;
    image::fresh::make(&mut board[at..at + Image::SIZE], &chart);
    Ok(())
}

// 1 to 11 and 21 to 23, or the bound.
fn bounded(chart: &[u8]) -> Result<u32, Refusal>
    ensures { record { answer = told_of (λ units. 256 * units) result; board = []; trace = [] } ≡ rules.observed (rules.bound_call chart.now) }
{
    let chart = checker::check(chart)?;
    bound::bound(&chart)
}

// One step of a lift. The answer is refusal + 256 x items + 131,072 x units.
pub fn step(
    chart: &[u8],
    board: &mut [u8],
    trace: &mut [u8],
    lift: u32,
    event: u32,
    allowance: u32,
) -> u64
    ensures { record { answer = result; board = board.new; trace = trace.new } ≡ rules.observed (rules.step_call chart.now board.old trace.old lift event allowance) }
{
    match stepped(chart, board, trace, lift, event, allowance) {
        Ok(went) => went.packed(),
        Err(why) => why.number() as u64,
    }
}

// A lift is made fresh for a chart. The answer is the refusal.
pub fn fresh(chart: &[u8], board: &mut [u8], lift: u32) -> u64
    ensures { record { answer = result; board = board.new; trace = [] } ≡ rules.observed (rules.fresh_call chart.now board.old lift) }
{
    match made_fresh(chart, board, lift) {
        Ok(()) => 0,
        Err(why) => why.number() as u64,
    }
}

// The bound of a chart. The answer is refusal + 256 x bound.
pub fn bound(chart: &[u8]) -> u64
    ensures { record { answer = result; board = []; trace = [] } ≡ rules.observed (rules.bound_call chart.now) }
{
    match bounded(chart) {
        Ok(units) => 256 * units as u64,
        Err(why) => why.number() as u64,
    }
}
