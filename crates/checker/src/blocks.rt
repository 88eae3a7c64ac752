// The rules of blocks.
ghost use Rattle.std.specs.Prelude.{◌≡◌, ◌∷◌, [], Bool};
ghost use Rattle.rules.specs.Lists.{every};
ghost use Rattle.rules.specs.Chart.{Block as RulesBlock};
ghost use Rattle.rules.specs.Chart as fields_of;
ghost use Rattle.rules.specs.Accept as rules;
ghost use Rattle.chart.specs.Read.{block_of};
ghost use Rattle.checker.specs.Meaning.{place_meant, effect_meant};
ghost use Rattle.checker.specs.Parts.{stack_in, barred_in};
ghost use Rattle.checker.specs.Tests.{Tests, state_blocks, segment_blocks};

use crate::ops;
use crate::ops::Effect;
use chart::blocks::Block;
use chart::instructions::Instruction;
use chart::{Chart, instructions};
use rules::numbers::{SegmentNo, StateNo};

// Where a block stands decides how its stack ends and what it may do.
#[derive(Clone, Copy, PartialEq, Eq, Debug)]
pub enum Place {
    Condition,
    Action,
    SendingAction,
}

#[tactic(auto, unfolding(rules::specs::Accept::is_none))]
fn is_none(block: Block) -> bool
    ensures { result ≡ rules.is_none (block_of block) }
{
    block.count == 0
}

#[tactic(auto, using(crate::proofs::Chains::choices), unfolding(rules::specs::Accept::block_right))]
fn inside(chart: &Chart, block: Block) -> bool
    ensures { result ≡ rules.block_right chart.now (block_of block) }
{
    if is_none(block) {
        block.start == 0
    } else {
        block.start as u32 + block.count as u32 <= chart.header().instructions as u32
    }
}

#[tactic(auto, using(crate::proofs::Chains::choices), unfolding(rules::specs::Accept::ends_at))]
fn ends_at(place: Place, block: Block) -> u32
    ensures { result ≡ rules.ends_at (place_meant place) (block_of block) }
{
    match place {
        Place::Condition => if is_none(block) { 0 } else { 1 },
        Place::Action | Place::SendingAction => 0,
    }
}

#[tactic(auto, unfolding(rules::specs::Accept::barred))]
fn barred(place: Place, effect: Effect) -> bool
    ensures { result ≡ rules.barred (place_meant place) (effect_meant effect) }
{
    match place {
        Place::Condition => effect != Effect::Nothing,
        Place::Action => effect == Effect::Sends,
        Place::SendingAction => false,
    }
}

// One pass over the block's instructions, of which the table has the bytes.
fn stack_right(table: &[u8], place: Place, block: Block) -> bool
    ensures { result ≡ stack_in table.now (place_meant place) (block_of block) }
{
    let start = block.start as u32;
    let end = start + block.count as u32;
    let mut depth: u32 = 0;
    for i in start..end {
        let rule = ops::rule_of(instructions::op_at(table, Instruction::SIZE * i));
        let takes = rule.takes as u32;
        if depth < takes {
            return false;
        }
        depth = depth - takes + rule.gives as u32;
        if Block::STACK < depth {
            return false;
        }
    }
    depth == ends_at(place, block)
}

fn nothing_barred(table: &[u8], place: Place, block: Block) -> bool
    ensures { result ≡ barred_in table.now (place_meant place) (block_of block) }
{
    let start = block.start as u32;
    let end = start + block.count as u32;
    (start..end).all(|i| !barred(
        place,
        ops::rule_of(instructions::op_at(table, Instruction::SIZE * i)).effect,
    ))
}

// A rule of blocks, at each block of a state and of a segment, and then of the chart.
fn of_state<F: Fn(Place, Block) -> bool>(chart: &Chart, right: &F, s: StateNo) -> bool
    requires { F.IsAlwaysCallable right.now }
    ensures { (rule : rules.Place → RulesBlock → Bool) → Tests (F.post right.now) rule → result ≡ state_blocks rule chart.now s.0 }
{
    right(Place::Action, chart.entry(s))
        && right(Place::SendingAction, chart.during(s))
        && right(Place::Action, chart.exit(s))
}

fn of_segment<F: Fn(Place, Block) -> bool>(chart: &Chart, right: &F, t: SegmentNo) -> bool
    requires { F.IsAlwaysCallable right.now }
    ensures { (rule : rules.Place → RulesBlock → Bool) → Tests (F.post right.now) rule → result ≡ segment_blocks rule chart.now t.0 }
{
    right(Place::Condition, chart.condition(t))
        && right(Place::SendingAction, chart.condition_action(t))
        && right(Place::Action, chart.transition_action(t))
}

fn every_block<F: Fn(Place, Block) -> bool>(chart: &Chart, right: F) -> bool
    requires { F.IsAlwaysCallable right }
    ensures { (rule : rules.Place → RulesBlock → Bool) → Tests (F.post right) rule → result ≡ rules.every_block chart.now rule }
{
    let h = chart.header();
    (0..h.states).all(|s| of_state(chart, &right, StateNo(s)))
        && (0..h.segments).all(|t| of_segment(chart, &right, SegmentNo(t)))
}

#[tactic(auto, unfolding(rules::specs::Lists::every))]
fn root_has_none(chart: &Chart) -> bool
    ensures { result ≡ every rules.is_none (fields_of.entry chart.now 0 ∷ fields_of.during chart.now 0 ∷ fields_of.exit chart.now 0 ∷ []) }
{
    let root = StateNo(0);
    is_none(chart.entry(root)) && is_none(chart.during(root)) && is_none(chart.exit(root))
}

pub fn right(chart: &Chart) -> bool
    ensures { result ≡ rules.blocks_right chart.now }
{
    every_block(chart, |_, block| inside(chart, block)) && root_has_none(chart)
}

pub fn every_stack_right(chart: &Chart) -> bool
    ensures { result ≡ rules.every_block chart.now (rules.stack_use_right chart.now) }
{
    let table = instructions::table(chart.bytes(), chart.header());
    every_block(chart, |place, block| stack_right(table, place, block))
}

pub fn nothing_barred_anywhere(chart: &Chart) -> bool
    ensures { result ≡ rules.every_block chart.now (rules.nothing_barred chart.now) }
{
    let table = instructions::table(chart.bytes(), chart.header());
    every_block(chart, |place, block| nothing_barred(table, place, block))
}
