// A block of 255 instructions, again and again: bench/run compares its time with a plain evaluator's. It prints how many rounds
// went well, and the variables after the last.
#![tactic(auto)]

use blocks::action;
use chart::Chart;
use chart::blocks::Block;
use chart::instructions::Instruction;
use chart::ops::Op;
use doing::{Counts, Now};
use image::variables;
use rules::headers::Header;
use rules::images::Image;
use rules::refusals::Refusal;
use std::io;

const ROUNDS: u32 = 100_000;

const COUNT: u8 = 255;

const INSTRUCTION: usize = Instruction::SIZE as usize;

// A header with no tables before the instructions, and the instructions.
const LENGTH: usize = Header::SIZE + COUNT as usize * INSTRUCTION;

// x = (x + 3) % 997; z = not (x < y); y = x * 2 / 5
const SEVENTEEN: [(Op, u8, i16); 17] = [
    (Op::Load, 0, 0),
    (Op::Push, 0, 3),
    (Op::Add, 0, 0),
    (Op::Push, 0, 997),
    (Op::Remainder, 0, 0),
    (Op::Store, 0, 0),
    (Op::Load, 0, 0),
    (Op::Load, 1, 0),
    (Op::Less, 0, 0),
    (Op::Not, 0, 0),
    (Op::Store, 2, 0),
    (Op::Load, 0, 0),
    (Op::Push, 0, 2),
    (Op::Multiply, 0, 0),
    (Op::Push, 0, 5),
    (Op::Quotient, 0, 0),
    (Op::Store, 1, 0),
];

fn build(chart: &mut [u8; LENGTH]) {
    let records = chart[Header::SIZE..].chunks_exact_mut(INSTRUCTION);
    for (i, record) in records.enumerate() {
        let (op, a, b) = SEVENTEEN[i % 17];
        record[2] = op as u8;
        record[3] = a;
        record[4..6].copy_from_slice(&b.to_le_bytes());
    }
}

fn once(chart: &Chart, image: &mut [u8]) -> Result<(), Refusal> {
    let block = Block {
        start: 0,
        count: COUNT,
    };
    let counts = Counts {
        units: COUNT as u32,
        items: 0,
    };
    let mut trace = [0u32; 1];
    action::perform(chart, block, &mut Now::new(image, &mut trace, counts))
}

// How many rounds went well: all, or none.
fn again(chart: &Chart, image: &mut [u8]) -> u32 {
    for _ in 0..ROUNDS {
        if once(chart, image).is_err() {
            return 0;
        }
    }
    ROUNDS
}

fn main(rt: HostRuntime) -> io::Result<()> {
    let mut code = [0u8; LENGTH];
    build(&mut code);
    let mut image = [0u8; Image::SIZE];
    let rounds = again(&Chart::read(&code), &mut image);
    println!(rt; "{rounds}")?;
    for v in 0..3 {
        println!(rt; "{}", variables::number(&image, v))?;
    }
    Ok(())
}
