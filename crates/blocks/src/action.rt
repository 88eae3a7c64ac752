// A block that cannot send.
ghost use Rattle.std.specs.Prelude.{◌≡◌, ◌*◌};
ghost use Rattle.rules.specs.Block as rules;
ghost use Rattle.chart.specs.Read.{block_of, instruction_from};
ghost use Rattle.doing.specs.Held.{held, Same};
ghost use Rattle.doing.specs.Outcomes.{outcome_of};
ghost use Rattle.blocks.specs.Performed.{ran_of};
ghost use Rattle.blocks.specs.Code.{code_in, paid_for};

use crate::instruct;
use crate::stack::Stack;
use chart::Chart;
use chart::blocks::Block;
use chart::instructions::Instruction;
use doing::Now;
use rules::refusals::Refusal;

// Instruction k of a block's part of a chart, paid before it.
pub fn paid(part: &[u8], k: u8, stack: &mut Stack, now: &mut Now) -> Result<(), Refusal>
    ensures came { ran_of result stack.new (held now.new) ≡ paid_for (instruction_from part.now (6 * k)) stack.old (held now.old) }
    ensures same { Same now.old now.new }
{
    now.pay()?;
    instruct::perform(part, Instruction::SIZE * (k as u32), stack, now)
}

// The first so many instructions of a block's part of a chart: past its end an instruction reads as 0, so that none is left out.
pub fn run(part: &[u8], count: u8, stack: &mut Stack, now: &mut Now) -> Result<(), Refusal>
    ensures came { ran_of result stack.new (held now.new) ≡ rules.perform rules.no_send stack.old (code_in part.now 0 count) (held now.old) }
    ensures same { Same now.old now.new }
{
    for k in 0..count {
        paid(part, k, stack, now)?;
    }
    Ok(())
}

// An action that cannot send.
pub fn perform(chart: &Chart, block: Block, now: &mut Now) -> Result<(), Refusal>
    ensures came { outcome_of result (held now.new) ≡ rules.action chart.now (block_of block) (held now.old) }
    ensures same { Same now.old now.new }
{
    if block.count == 0 {
        return Ok(());
    }
    run(chart.code(block), block.count, &mut Stack::new(), now)
}
