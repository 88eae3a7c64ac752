// What an op takes from the stack and gives to it, what it does besides, and its operands.
ghost use Rattle.std.specs.Prelude.{◌≡◌};
ghost use Rattle.rules.specs.Accept.{op_rule};
ghost use Rattle.chart.specs.Read.{op_meant};
ghost use Rattle.checker.specs.Meaning.{effect_meant, operands_meant, op_rule_of, row_of};

use chart::ops::Op;

#[derive(Clone, Copy, PartialEq, Eq, Debug)]
pub enum Effect {
    Nothing,
    Acts,
    Sends,
}

#[derive(Clone, Copy, PartialEq, Eq, Debug)]
pub enum Operands {
    Bare,
    Value,
    Variable,
    Output,
    EventAndState,
    NoOp,
}

#[derive(Clone, Copy, PartialEq, Eq, Debug)]
pub struct OpRule {
    pub takes: u8,
    pub gives: u8,
    pub effect: Effect,
    pub operands: Operands,
}

fn row(takes: u8, gives: u8, effect: Effect, operands: Operands) -> OpRule
    ensures { op_rule_of result ≡ row_of takes gives effect operands }
{
    OpRule {
        takes,
        gives,
        effect,
        operands,
    }
}

#[tactic(auto, unfolding(rules::specs::Accept::op_rule))]
pub fn rule_of(op: Op) -> OpRule
    ensures { op_rule_of result ≡ op_rule (op_meant op) }
{
    match op {
        Op::Push => row(0, 1, Effect::Nothing, Operands::Value),
        Op::Load => row(0, 1, Effect::Nothing, Operands::Variable),
        Op::Store => row(1, 0, Effect::Acts, Operands::Variable),
        Op::Add => row(2, 1, Effect::Nothing, Operands::Bare),
        Op::Subtract => row(2, 1, Effect::Nothing, Operands::Bare),
        Op::Multiply => row(2, 1, Effect::Nothing, Operands::Bare),
        Op::Quotient => row(2, 1, Effect::Nothing, Operands::Bare),
        Op::Remainder => row(2, 1, Effect::Nothing, Operands::Bare),
        Op::Less => row(2, 1, Effect::Nothing, Operands::Bare),
        Op::Equal => row(2, 1, Effect::Nothing, Operands::Bare),
        Op::Not => row(1, 1, Effect::Nothing, Operands::Bare),
        Op::Raise => row(0, 0, Effect::Acts, Operands::Output),
        Op::Send => row(0, 0, Effect::Sends, Operands::EventAndState),
        Op::Unknown => row(0, 0, Effect::Nothing, Operands::NoOp),
    }
}
