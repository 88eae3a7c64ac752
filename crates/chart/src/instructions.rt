// An instruction.
ghost use Rattle.std.specs.Prelude.{◌≡◌, ◌+◌, ◌*◌, ◌%◌, take, drop};
ghost use Rattle.rules.specs.Bytes.{byte, field, signed, unsigned};
ghost use Rattle.rules.specs.Chart.{op_of};
ghost use Rattle.rules.specs.Accept.{is_send};
ghost use Rattle.chart.specs.Places.{instruction_place};
ghost use Rattle.chart.specs.Read.{op_meant, instruction_of, instruction_from};

use crate::blocks::Block;
use crate::ops::Op;
use crate::places;
use fields::Field;
use rules::headers::Header;
use rules::numbers::StateNo;

#[derive(Clone, Copy, PartialEq, Eq, Debug)]
pub struct Instruction {
    pub op: Op,
    pub a: u8,
    pub b: i16,
}

impl Instruction {
    pub const SIZE: u32 = Header::INSTRUCTION;
}

// The op of the instruction at a place, of a chart or of a part of one.
pub fn op_at(bytes: &[u8], place: u32) -> Op
    ensures { op_meant result ≡ op_of (byte bytes.now (place + 2)) }
{
    Op::from(u8::at(bytes, place as usize + 2))
}

pub fn is_send(bytes: &[u8], place: u32) -> bool
    ensures { result ≡ is_send (op_of (byte bytes.now (place + 2))) }
{
    u8::at(bytes, place as usize + 2) == Op::Send as u8
}

// Its operands.
pub fn a_at(bytes: &[u8], place: u32) -> u8
    ensures { result ≡ byte bytes.now (place + 3) }
{
    u8::at(bytes, place as usize + 3)
}

pub fn b_at(bytes: &[u8], place: u32) -> i16
    ensures { result ≡ signed 2 (field 2 bytes.now (place + 4)) }
{
    i16::at(bytes, place as usize + 4)
}

// The state that a send names: of its second operand one byte is read.
pub fn state_at(bytes: &[u8], place: u32) -> StateNo
    ensures { result.0 ≡ unsigned 2 (signed 2 (field 2 bytes.now (place + 4))) % 256 }
{
    StateNo(u8::at(bytes, place as usize + 4))
}

pub fn at(bytes: &[u8], place: u32) -> Instruction
    ensures { instruction_of result ≡ instruction_from bytes.now place }
{
    Instruction {
        op: op_at(bytes, place),
        a: a_at(bytes, place),
        b: b_at(bytes, place),
    }
}

// The table of instructions, as far as the chart has it.
pub fn table(chart: &[u8], h: Header) -> &[u8]
    ensures { result.now ≡ drop (instruction_place h 0) chart.now }
{
    let place = places::instruction(h, 0) as usize;
    &chart[chart.len().min(place)..]
}

// A block's part of the chart, as far as the chart has it.
pub fn of_block(chart: &[u8], h: Header, block: Block) -> &[u8]
    ensures { result.now ≡ take (6 * block.count) (drop (instruction_place h block.start) chart.now) }
{
    let place = places::instruction(h, block.start) as usize;
    let length = Instruction::SIZE as usize * (block.count as usize);
    let start = chart.len().min(place);
    let end = chart.len().min(start + length);
    &chart[start..end]
}
