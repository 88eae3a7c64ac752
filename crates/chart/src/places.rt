// Where each record stands. A header's counts are narrow, so that every place fits 32 bits.
ghost use Rattle.std.specs.Prelude.{◌≡◌};
ghost use Rattle.chart.specs.Places.{state_place, junction_place, segment_place, variable_place, instruction_place};

use rules::headers::Header;
use rules::numbers::{JunctionNo, SegmentNo, StateNo};

pub fn state(s: StateNo) -> u32
    ensures { result ≡ state_place s.0 }
{
    Header::SIZE as u32 + StateNo::RECORD * (s.0 as u32)
}

pub fn junction(h: Header, j: JunctionNo) -> u32
    ensures { result ≡ junction_place h j.0 }
{
    state(StateNo(h.states)) + JunctionNo::RECORD * (j.0 as u32)
}

pub fn segment(h: Header, t: SegmentNo) -> u32
    ensures { result ≡ segment_place h t.0 }
{
    junction(h, JunctionNo(h.junctions)) + SegmentNo::RECORD * (t.0 as u32)
}

pub fn variable(h: Header, v: u8) -> u32
    ensures { result ≡ variable_place h v }
{
    segment(h, SegmentNo(h.segments)) + Header::VARIABLE * (v as u32)
}

pub fn instruction(h: Header, i: u16) -> u32
    ensures { result ≡ instruction_place h i }
{
    variable(h, h.variables) + Header::INSTRUCTION * (i as u32)
}

// Where the last table ends.
pub fn total(h: Header) -> u32
    ensures { result ≡ instruction_place h h.instructions }
{
    instruction(h, h.instructions)
}
