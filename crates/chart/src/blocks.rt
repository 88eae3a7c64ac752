// A block: some instructions in a row.
ghost use Rattle.std.specs.Prelude.{◌≡◌, ◌+◌};
ghost use Rattle.rules.specs.Chart.{block_at};
ghost use Rattle.chart.specs.Read.{block_of};

use fields::Field;

#[derive(Clone, Copy, PartialEq, Eq, Debug)]
pub struct Block {
    pub start: u16,
    pub count: u8,
}

impl Block {
    // The deepest that the stack of a block may be.
    pub const STACK: u32 = 16;

    // The cells that hold it.
    pub const CELLS: usize = Block::STACK as usize;
}

// The block at an offset of the record that stands at a place.
pub fn at(chart: &[u8], place: u32, offset: u8) -> Block
    ensures { block_of result ≡ block_at chart.now (place + offset) }
{
    let first = place as usize + offset as usize;
    Block {
        start: u16::at(chart, first),
        count: u8::at(chart, first + 2),
    }
}
