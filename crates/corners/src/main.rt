// Each op that computes, at the corners of the values, performed as a block that loads its operands and stores its result:
// each line is the op, its operands, and the result or the refusal. At the end, what a block pays and what room it wants.
#![tactic(auto)]

use blocks::action;
use chart::Chart;
use chart::blocks::Block;
use chart::instructions::Instruction;
use chart::ops::Op;
use doing::{Counts, Now};
use image::variables;
use rules::headers::Header;
use rules::images::Image;
use rules::refusals::Refusal;
use std::{fmt, io};

const CORNERS: [i32; 5] = [i32::MIN, -1, 0, 1, i32::MAX];

const OF_TWO: [(&str, Op); 7] = [
    ("add", Op::Add),
    ("subtract", Op::Subtract),
    ("multiply", Op::Multiply),
    ("quotient", Op::Quotient),
    ("remainder", Op::Remainder),
    ("less", Op::Less),
    ("equal", Op::Equal),
];

const INSTRUCTION: usize = Instruction::SIZE as usize;

// A header with no tables before the instructions, and at most four of these.
const LENGTH: usize = Header::SIZE + 4 * INSTRUCTION;

// An op with its first operand, one after the other.
fn chart_of(code: &[(Op, u8)]) -> [u8; LENGTH] {
    let mut chart = [0u8; LENGTH];
    let records = chart[Header::SIZE..].chunks_exact_mut(INSTRUCTION);
    for (record, &(op, a)) in records.zip(code) {
        record[2] = op as u8;
        record[3] = a;
    }
    chart
}

// The third variable behind a block, or why it is refused.
#[derive(Drop)]
struct Answer(Result<i32, Refusal>);

impl fmt::Display for Answer {
    fn fmt<W: fmt::Write>(&self, f: &mut fmt::Formatter<W>) -> fmt::Result {
        match self.0 {
            Ok(value) => write!(f, "{value}"),
            Err(why) => write!(f, "refused {}", why.number()),
        }
    }
}

// The first so many instructions, with so many units and with room for one item, on these two variables.
fn performed(chart: &Chart, count: u8, units: u32, x: i32, y: i32) -> Result<i32, Refusal> {
    let mut image = [0u8; Image::SIZE];
    variables::set(&mut image, 0, x);
    variables::set(&mut image, 1, y);
    let mut trace = [0u32; 1];
    let mut now = Now::new(&mut image, &mut trace, Counts { units, items: 0 });
    action::perform(chart, Block { start: 0, count }, &mut now)?;
    Ok(now.variable(2))
}

fn of_two(rt: &impl Print, name: &str, op: Op) -> io::Result<()> {
    let code = chart_of(&[(Op::Load, 0), (Op::Load, 1), (op, 0), (Op::Store, 2)]);
    let chart = Chart::read(&code);
    for x in CORNERS {
        for y in CORNERS {
            let answer = Answer(performed(&chart, 4, 4, x, y));
            println!(rt; "{name} {x} {y}: {answer}")?;
        }
    }
    Ok(())
}

fn negations(rt: &impl Print) -> io::Result<()> {
    let code = chart_of(&[(Op::Load, 0), (Op::Not, 0), (Op::Store, 2)]);
    let chart = Chart::read(&code);
    for x in CORNERS {
        let answer = Answer(performed(&chart, 3, 3, x, 0));
        println!(rt; "not {x}: {answer}")?;
    }
    Ok(())
}

// With room for one item.
fn counted(rt: &impl Print) -> io::Result<()> {
    let code = chart_of(&[
        (Op::Load, 0),
        (Op::Store, 2),
        (Op::Raise, 1),
        (Op::Raise, 1),
    ]);
    let chart = Chart::read(&code);
    for (count, units) in [
        (0, 0),
        (1, 0),
        (2, 1),
        (2, 2),
        (3, 2),
        (3, 3),
        (4, 3),
        (4, 4),
    ] {
        let answer = Answer(performed(&chart, count, units, 7, 0));
        println!(rt; "{count} instructions, {units} units: {answer}")?;
    }
    Ok(())
}

fn main(rt: HostRuntime) -> io::Result<()> {
    for (name, op) in OF_TWO {
        of_two(&rt, name, op)?;
    }
    negations(&rt)?;
    counted(&rt)
}
