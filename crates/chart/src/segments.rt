// A segment's fields, and the segments that start at an edge of a state or at a junction.
ghost use Rattle.std.specs.Prelude.{◌≡◌, ◌+◌, ◌*◌, ◌/◌, ◌%◌, eqb};
ghost use Rattle.rules.specs.Bytes.{byte};
ghost use Rattle.rules.specs.Chart.{block_at};
ghost use Rattle.chart.specs.Places.{segment_place};
ghost use Rattle.chart.specs.Read.{block_of, source_named, destination_named, end_named, kind_of, number_of, starts_in, starting_from, first_segment};

use crate::blocks::Block;
use crate::{blocks, places};
use fields::Field;
use rules::headers::Header;
use rules::numbers::{JunctionNo, SegmentNo, StateNo};

// Where a segment starts: on a state's outer or inner edge, or at a junction.
#[derive(Clone, Copy, PartialEq, Eq, Debug)]
pub enum Source {
    Outer(StateNo),
    Inner(StateNo),
    Junction(JunctionNo),
}

// Where it ends.
#[derive(Clone, Copy, PartialEq, Eq, Debug)]
pub enum End {
    State(StateNo),
    Junction(JunctionNo),
}

impl Source {
    // Its kind and its number as they stand in a segment's record.
    pub fn kind(self) -> u8
        ensures { result ≡ kind_of self }
    {
        match self {
            Source::Outer(_) => 0,
            Source::Inner(_) => 1,
            Source::Junction(_) => 2,
        }
    }

    pub fn number(self) -> u8
        ensures { result ≡ number_of self }
    {
        match self {
            Source::Outer(s) => s.0,
            Source::Inner(s) => s.0,
            Source::Junction(j) => j.0,
        }
    }
}

fn byte_of(chart: &[u8], h: Header, t: SegmentNo, offset: u8) -> u8
    ensures { result ≡ byte chart.now (segment_place h t.0 + offset) }
{
    u8::at(chart, places::segment(h, t) as usize + offset as usize)
}

fn block_of(chart: &[u8], h: Header, t: SegmentNo, offset: u8) -> Block
    ensures { block_of result ≡ block_at chart.now (segment_place h t.0 + offset) }
{
    blocks::at(chart, places::segment(h, t), offset)
}

// By the two bytes of a record. None has a kind that there is not.
fn source_named(kind: u8, number: u8) -> Option<Source>
    ensures { result ≡ source_named kind number }
{
    match kind {
        0 => Some(Source::Outer(StateNo(number))),
        1 => Some(Source::Inner(StateNo(number))),
        2 => Some(Source::Junction(JunctionNo(number))),
        _ => None,
    }
}

fn destination_named(kind: u8, number: u8) -> Option<End>
    ensures { result ≡ destination_named kind number }
{
    match kind {
        0 => Some(End::State(StateNo(number))),
        1 => Some(End::Junction(JunctionNo(number))),
        _ => None,
    }
}

pub fn source_of(chart: &[u8], h: Header, t: SegmentNo) -> Option<Source>
    ensures { result ≡ source_named (byte chart.now (segment_place h t.0 + 2)) (byte chart.now (segment_place h t.0 + 3)) }
{
    source_named(byte_of(chart, h, t, 2), byte_of(chart, h, t, 3))
}

pub fn destination_of(chart: &[u8], h: Header, t: SegmentNo) -> Option<End>
    ensures { result ≡ destination_named (byte chart.now (segment_place h t.0 + 4)) (byte chart.now (segment_place h t.0 + 5)) }
{
    destination_named(byte_of(chart, h, t, 4), byte_of(chart, h, t, 5))
}

// Where it leads: a segment that does not end on a state leads to a junction.
pub fn end_of(chart: &[u8], h: Header, t: SegmentNo) -> End
    ensures { result ≡ end_named (byte chart.now (segment_place h t.0 + 4)) (byte chart.now (segment_place h t.0 + 5)) }
{
    let number = byte_of(chart, h, t, 5);
    if byte_of(chart, h, t, 4) == 0 {
        End::State(StateNo(number))
    } else {
        End::Junction(JunctionNo(number))
    }
}

pub fn event(chart: &[u8], h: Header, t: SegmentNo) -> u8
    ensures { result ≡ byte chart.now (segment_place h t.0 + 6) }
{
    byte_of(chart, h, t, 6)
}

pub fn condition(chart: &[u8], h: Header, t: SegmentNo) -> Block
    ensures { block_of result ≡ block_at chart.now (segment_place h t.0 + 9) }
{
    block_of(chart, h, t, 9)
}

pub fn condition_action(chart: &[u8], h: Header, t: SegmentNo) -> Block
    ensures { block_of result ≡ block_at chart.now (segment_place h t.0 + 12) }
{
    block_of(chart, h, t, 12)
}

pub fn transition_action(chart: &[u8], h: Header, t: SegmentNo) -> Block
    ensures { block_of result ≡ block_at chart.now (segment_place h t.0 + 15) }
{
    block_of(chart, h, t, 15)
}

// Whether its two bytes are these: of any kind, one that there is not too.
pub fn starts(chart: &[u8], h: Header, kind: u8, number: u8, t: SegmentNo) -> bool
    ensures { result ≡ starts_in chart.now h kind number t.0 }
{
    (byte_of(chart, h, t, 2) == kind) & (byte_of(chart, h, t, 3) == number)
}

// A source's kind and number in one number, as its two bytes stand in a segment's record.
fn word(kind: u8, number: u8) -> u16
    ensures { result ≡ kind + 256 * number }
{
    kind as u16 + 256 * (number as u16)
}

fn word_of(chart: &[u8], h: Header, t: SegmentNo) -> u16
    ensures { result ≡ byte chart.now (segment_place h t.0 + 2) + 256 * byte chart.now (segment_place h t.0 + 3) }
{
    u16::at(chart, places::segment(h, t) as usize + 2)
}

// The first segment from a number on that has these two bytes. Both are one load, and the place is counted on: an iterator's
// `find` took half as long again.
fn listed(chart: &[u8], h: Header, source: u16, from: u16) -> Option<SegmentNo>
    ensures { result ≡ first_segment (starting_from chart.now h (source % 256) (source / 256) from) }
{
    let mut place = places::segment(h, SegmentNo(from)) as usize + 2;
    for t in from..h.segments {
        if u16::at(chart, place) == source {
            return Some(SegmentNo(t));
        }
        place += SegmentNo::RECORD as usize;
    }
    None
}

// The first from a number on that starts there.
pub fn starting(chart: &[u8], h: Header, source: Source, from: u16) -> Option<SegmentNo>
    ensures { result ≡ first_segment (starting_from chart.now h (kind_of source) (number_of source) from) }
{
    listed(chart, h, word(source.kind(), source.number()), from)
}

// The next of the list that a segment stands in.
pub fn after(chart: &[u8], h: Header, t: SegmentNo) -> Option<SegmentNo>
    ensures { result ≡ first_segment (starting_from chart.now h (byte chart.now (segment_place h t.0 + 2)) (byte chart.now (segment_place h t.0 + 3)) (t.0 + 1)) }
{
    if h.segments <= t.0 {
        return None;
    }
    listed(chart, h, word_of(chart, h, t), t.0 + 1)
}
