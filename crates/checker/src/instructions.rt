// The rules of instructions.
ghost use Rattle.std.specs.Prelude.{◌≡◌};
ghost use Rattle.rules.specs.Lists.{below, every};
ghost use Rattle.rules.specs.Chart as fields_of;
ghost use Rattle.rules.specs.Accept as rules;
ghost use Rattle.chart.specs.Read.{instruction_of};
ghost use Rattle.checker.specs.Meaning.{operands_meant};

use crate::ops;
use crate::ops::Operands;
use chart::instructions::Instruction;
use chart::{Chart, instructions, places};

// A negative b is a number above every state's.
fn any_state(chart: &Chart, b: i16) -> bool
    ensures { result ≡ rules.any_state chart.now b }
{
    b.cast_unsigned() < chart.header().states as u16
}

#[tactic(auto, using(crate::proofs::Numbers::zero_held), unfolding(rules::specs::Accept::operands_right))]
fn operands_right(chart: &Chart, operands: Operands, i: Instruction) -> bool
    ensures { result ≡ rules.operands_right chart.now (operands_meant operands) (instruction_of i) }
{
    let h = chart.header();
    match operands {
        Operands::Bare => i.a == 0 && i.b == 0,
        Operands::Value => i.a == 0,
        Operands::Variable => i.a < h.variables && i.b == 0,
        Operands::Output => 1 <= i.a && i.a <= h.outputs && i.b == 0,
        Operands::EventAndState => 1 <= i.a && i.a <= h.events && any_state(chart, i.b),
        Operands::NoOp => false,
    }
}

fn instruction_right(chart: &Chart, i: u16) -> bool
    ensures { result ≡ rules.instruction_right chart.now i }
{
    let instruction = instructions::at(chart.bytes(), places::instruction(chart.header(), i));
    operands_right(chart, ops::rule_of(instruction.op).operands, instruction)
}

pub fn right(chart: &Chart) -> bool
    ensures { result ≡ every (rules.instruction_right chart.now) (below (fields_of.instructions chart.now)) }
{
    (0..chart.header().instructions).all(|i| instruction_right(chart, i))
}
