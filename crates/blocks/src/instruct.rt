// One instruction on the value stack, the image and the trace.
ghost use Rattle.std.specs.Prelude.{◌≡◌};
ghost use Rattle.rules.specs.Chart as ops;
ghost use Rattle.rules.specs.Doing as step;
ghost use Rattle.rules.specs.Block as rules;
ghost use Rattle.chart.specs.Read.{instruction_from};
ghost use Rattle.doing.specs.Held.{held, Same};
ghost use Rattle.blocks.specs.Values.{binary_meant};
ghost use Rattle.blocks.specs.Performed.{ran_of};
ghost use Rattle.blocks.specs.Code.{instructed};

use crate::stack::Stack;
use crate::values;
use crate::values::Binary;
use chart::instructions;
use chart::ops::Op;
use doing::Now;
use rules::items::Item;
use rules::refusals::Refusal;

// The top is a binary op's second operand, what is below it the first.
fn binary(op: Binary, stack: &mut Stack) -> Result<(), Refusal>
    ensures { (n : step.Now) (i : ops.Instruction) → ran_of result stack.new n ≡ rules.instruct rules.no_send (binary_meant op) i stack.old n }
{
    let value = values::combine(op, stack.lower(), stack.top()).ok_or(Refusal::Arithmetic)?;
    stack.take_off(2);
    stack.push(value);
    Ok(())
}

// The instruction at a place of a block's part of a chart; its operands are read where they are wanted. A send is barred here,
// and an unknown op is in no chart that is taken: nothing is done.
pub fn perform(part: &[u8], place: u32, stack: &mut Stack, now: &mut Now) -> Result<(), Refusal>
    ensures came { ran_of result stack.new (held now.new) ≡ instructed (instruction_from part.now place) stack.old (held now.old) }
    ensures same { Same now.old now.new }
{
    match instructions::op_at(part, place) {
        Op::Push => stack.push(instructions::b_at(part, place) as i32),
        Op::Load => stack.push(now.variable(instructions::a_at(part, place))),
        Op::Store => now.set_variable(instructions::a_at(part, place), stack.pop()),
        Op::Add => return binary(Binary::Add, stack),
        Op::Subtract => return binary(Binary::Subtract, stack),
        Op::Multiply => return binary(Binary::Multiply, stack),
        Op::Quotient => return binary(Binary::Quotient, stack),
        Op::Remainder => return binary(Binary::Remainder, stack),
        Op::Less => return binary(Binary::Less, stack),
        Op::Equal => return binary(Binary::Equal, stack),
        Op::Not => {
            let top = stack.pop();
            stack.push(values::truth(values::is_zero(top)))
        }
        Op::Raise => return now.note(Item::Raised(instructions::a_at(part, place))),
        Op::Send | Op::Unknown => {}
    }
    Ok(())
}
