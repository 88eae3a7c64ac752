// Run, search, block and send call each other in a cycle: a send runs a state, a run searches, a search performs blocks, and a
// block sends. Each turn of it pays, so that the units left fall.
ghost use Rattle.std.specs.Prelude.{◌≡◌, [], ◌∷◌, ◌-◌, length};
ghost use Rattle.std.specs.Result.{IfOk};
ghost use Rattle.rules.specs.Block as block-rules;
ghost use Rattle.rules.specs.Search as search-rules;
ghost use Rattle.rules.specs.Fire.{levels};
ghost use Rattle.rules.specs.Run as rules;
ghost use Rattle.chart.specs.Read.{block_of, instruction_from};
ghost use Rattle.doing.specs.Held.{held, Same};
ghost use Rattle.doing.specs.Outcomes.{outcome_of};
ghost use Rattle.engine.specs.Told as told;
ghost use Rattle.engine.specs.Told.{path_after, found_of, list_of};

use crate::path::Path;
use crate::turns::Place;
use crate::{passing, turns};
use blocks::action;
use blocks::stack::Stack;
use chart::blocks::Block;
use chart::instructions::Instruction;
use chart::segments::{End, Source};
use chart::{Chart, instructions};
use doing::Now;
use moves::firing;
use rules::items::Item;
use rules::numbers::{SegmentNo, StateNo};
use rules::refusals::Refusal;

// What trying a segment comes to.
#[derive(Clone, Copy, PartialEq, Eq, Debug)]
pub enum Tried {
    Failed, // it does not pass
    Passed, // it is on the path, and its condition action is done
    Abandoned, // the owner is gone
}

// What a search comes to.
#[derive(Clone, Copy, PartialEq, Eq, Debug)]
pub enum Found {
    Reached(StateNo), // the path leads to this state
    Nowhere, // no segment led to a state
    Ended, // at a junction without segments
    Abandoned, // the owner is gone
}

// The turn of a state in a run: with that event, and with so many sends more that can be opened.
#[derive(Clone, Copy, PartialEq, Eq, Debug)]
struct Turn {
    state: StateNo,
    event: u8,
    sends: u8,
}

// Whether the owner of a block is not there any more after a send.
fn gone(now: &Now, owner: StateNo) -> bool
    ensures { result ≡ block-rules.gone owner.0 (held now.now).image }
{
    !now.is_active(owner)
}

// State b is run at once with that event, if it is active; otherwise nothing. So many sends more can be opened.
#[cycle(running_and_sending)]
fn send(chart: &Chart, now: &mut Now, sends: u8, event: u8, b: StateNo) -> Result<(), Refusal>
    ensures came { outcome_of result (held now.new) ≡ rules.send chart.now sends event b.0 (held now.old) }
    ensures same { Same now.old now.new }
{
    if !now.is_active(b) {
        return Ok(());
    }
    if sends == 0 {
        return Err(Refusal::NinthSend);
    }
    run(chart, now, sends - 1, event, b)
}

// The send at a place of a block's part of the chart, paid before it; whether the block and the turn are abandoned then.
#[cycle(running_and_sending)]
fn send_from(
    chart: &Chart,
    now: &mut Now,
    turn: Turn,
    part: &[u8],
    place: u32,
) -> Result<bool, Refusal>
    ensures came { outcome_of result (held now.new) ≡ told.paid_send chart.now turn.sends turn.state.0 (instruction_from part.now place) (held now.old) }
    ensures same { Same now.old now.new }
{
    now.pay()?;
    let event = instructions::a_at(part, place);
    let b = instructions::state_at(part, place);
    send(chart, now, turn.sends, event, b)?;
    Ok(gone(now, turn.state))
}

// A block that can send; whether the rest of it and of the turn is abandoned.
#[cycle(running_and_sending)]
fn block(chart: &Chart, now: &mut Now, turn: Turn, block: Block) -> Result<bool, Refusal>
    ensures came { outcome_of result (held now.new) ≡ told.acted chart.now turn.sends turn.state.0 (block_of block) (held now.old) }
    ensures same { Same now.old now.new }
{
    if block.count == 0 {
        return Ok(false);
    }
    let part = chart.code(block);
    let mut stack = Stack::new();
    for k in 0..block.count {
        let place = Instruction::SIZE * (k as u32);
        if instructions::is_send(part, place) {
            if send_from(chart, now, turn, part, place)? {
                return Ok(true);
            }
        } else {
            action::paid(part, k, &mut stack, now)?;
        }
    }
    Ok(false)
}

// A segment that passes: its item, then its condition action; whether the turn is abandoned.
#[cycle(running_and_sending)]
fn pass(chart: &Chart, now: &mut Now, turn: Turn, t: SegmentNo) -> Result<bool, Refusal>
    ensures came { outcome_of result (held now.new) ≡ told.passing chart.now turn.sends turn.state.0 t.0 (held now.old) }
    ensures same { Same now.old now.new }
{
    now.note(Item::Passed(t))?;
    block(chart, now, turn, chart.condition_action(t))
}

// A segment is tried after those of a path: where it passes, it goes onto the path, and its condition action is performed
// there and then.
#[cycle(running_and_sending)]
fn attempt(
    chart: &Chart,
    now: &mut Now,
    turn: Turn,
    path: &mut Path,
    t: SegmentNo,
) -> Result<Tried, Refusal>
    ensures came { outcome_of result (held now.new) ≡ told.tried chart.now turn.sends turn.event turn.state.0 (128 - length path.old) t.0 (held now.old) }
    ensures same { Same now.old now.new }
    ensures path { IfOk result (λ came. path.new ≡ path_after came path.old t.0) }
{
    if !passing::passes(chart, now, turn.event, t)? {
        return Ok(Tried::Failed);
    }
    path.push(t)?;
    if pass(chart, now, turn, t)? {
        return Ok(Tried::Abandoned);
    }
    Ok(Tried::Passed)
}

// The search along a list of segments and the lists of the junctions that they lead to: the path is all that waits, since each
// segment on it says which list goes on after it.
#[cycle(running_and_sending)]
fn search(
    chart: &Chart,
    now: &mut Now,
    turn: Turn,
    path: &mut Path,
    first: SegmentNo,
) -> Result<Found, Refusal>
    requires { path.old ≡ [] }
    ensures came { found_of result path.new (held now.new) ≡ search-rules.search chart.now (rules.send chart.now turn.sends) turn.event turn.state.0 (first.0 ∷ told.later chart.now first.0) (held now.old) }
    ensures same { Same now.old now.new }
{
    let mut next = Some(first);
    let found = 'search: loop {
        while let Some(t) = next {
            match attempt(chart, now, turn, path, t)? {
                Tried::Failed => next = chart.after(t),
                Tried::Abandoned => break 'search Found::Abandoned,
                Tried::Passed => match chart.end(t) {
                    End::State(target) => break 'search Found::Reached(target),
                    End::Junction(j) => {
                        next = chart.first(Source::Junction(j));
                        if next.is_none() {
                            break 'search Found::Ended;
                        }
                    }
                },
            }
        }
        let Some(last) = path.pop() else {
            break 'search Found::Nowhere;
        };
        next = chart.after(last);
    };
    Ok(found)
}

// The segments of an edge of the state are searched from the first on, and a path to a state is fired; whether the turn is over.
#[cycle(running_and_sending)]
fn edge(chart: &Chart, now: &mut Now, turn: Turn, first: Option<SegmentNo>) -> Result<bool, Refusal>
    ensures came { outcome_of result (held now.new) ≡ told.followed chart.now turn.sends turn.event turn.state.0 (list_of chart.now first) (held now.old) }
    ensures same { Same now.old now.new }
{
    let Some(first) = first else {
        return Ok(false);
    };
    let mut path = Path::new();
    match search(chart, now, turn, &mut path, first)? {
        Found::Reached(target) => {
            firing::fire(chart, now, turn.state, target, path.as_slice())?;
            Ok(true)
        }
        Found::Nowhere | Found::Ended => Ok(false),
        Found::Abandoned => Ok(true),
    }
}

// A state has its turn: outer segments, during action, inner segments; whether its run is over, so that no child is run.
#[cycle(running_and_sending)]
fn alone(chart: &Chart, now: &mut Now, turn: Turn) -> Result<bool, Refusal>
    ensures came { outcome_of result (held now.new) ≡ told.run_alone chart.now turn.sends turn.event turn.state.0 (held now.old) }
    ensures same { Same now.old now.new }
{
    now.pay()?;
    let outer = chart.first(Source::Outer(turn.state));
    if edge(chart, now, turn, outer)? {
        return Ok(true);
    }
    inside(chart, now, turn)
}

// What follows where no outer segment reached a state: the during action, then the inner segments; whether the run is over.
#[cycle(running_and_sending)]
fn inside(chart: &Chart, now: &mut Now, turn: Turn) -> Result<bool, Refusal>
    ensures came { outcome_of result (held now.new) ≡ told.inside_alone chart.now turn.sends turn.event turn.state.0 (held now.old) }
    ensures same { Same now.old now.new }
{
    now.note(Item::During(turn.state))?;
    if block(chart, now, turn, chart.during(turn.state))? {
        return Ok(true);
    }
    let inner = chart.first(Source::Inner(turn.state));
    edge(chart, now, turn, inner)
}

// A state is run, and then what is active below it, each when its turn comes.
#[cycle(running_and_sending)]
pub fn run(chart: &Chart, now: &mut Now, sends: u8, event: u8, top: StateNo) -> Result<(), Refusal>
    ensures came { outcome_of result (held now.new) ≡ rules.run chart.now (rules.send chart.now sends) event levels top.0 (held now.old) }
    ensures same { Same now.old now.new }
{
    let h = chart.header();
    let mut next = Some(Place {
        state: top,
        depth: 0,
    });
    while let Some(Place { state, depth }) = next {
        let turn = Turn {
            state,
            event,
            sends,
        };
        let over = alone(chart, now, turn)?;
        let from = if over { h.states } else { 1 };
        next = turns::next(chart.bytes(), h, now.image(), state, from, depth);
    }
    Ok(())
}
