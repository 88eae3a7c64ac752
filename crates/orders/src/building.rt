// The chart: the all-of root over 1 and 2; 1, one-of with history, over 3 (initial) and 4; 4, one-of, over 6 (initial) and 7;
// 2, all-of, over 5 and 8. Segments: 0 from 3 to 7, 1 from 7 to 3, 2 from 1 to itself, 3 from 6 to the root's junction, 4 from
// there to 3.
use chart::kinds::Kind;
use chart::ops::Op;
use chart::places;
use chart::segments::{End, Source};
use rules::headers::Header;
use rules::numbers::{JunctionNo, SegmentNo, StateNo};

pub(crate) const LENGTH: usize = 358;

pub(crate) const COUNTS: Header = Header {
    states: 9,
    junctions: 1,
    segments: 5,
    variables: 0,
    events: 1,
    outputs: 28,
    instructions: 18,
};

// Each state's parent, kind and initial child.
const STATES: [(u8, Kind, u8); 9] = [
    (0, Kind::AllOf, 0),
    (0, Kind::OneOf, 3),
    (0, Kind::AllOf, 0),
    (1, Kind::Leaf, 0),
    (1, Kind::OneOf, 6),
    (2, Kind::Leaf, 0),
    (4, Kind::Leaf, 0),
    (4, Kind::Leaf, 0),
    (2, Kind::Leaf, 0),
];

const SEGMENTS: [(Source, End); 5] = [
    (Source::Outer(StateNo(3)), End::State(StateNo(7))),
    (Source::Outer(StateNo(7)), End::State(StateNo(3))),
    (Source::Outer(StateNo(1)), End::State(StateNo(1))),
    (Source::Outer(StateNo(6)), End::Junction(JunctionNo(0))),
    (Source::Junction(JunctionNo(0)), End::State(StateNo(3))),
];

// Bytes put from an offset of a record on.
fn put(chart: &mut [u8], place: u32, offset: u8, bytes: &[u8]) {
    let first = place as usize + offset as usize;
    if let Some(here) = chart.get_mut(first..first + bytes.len()) {
        here.copy_from_slice(bytes);
    }
}

fn header(chart: &mut [u8], h: Header) {
    put(chart, 0, 0, &[b'C', b'H', h.states, h.junctions]);
    put(chart, 4, 0, &h.segments.to_le_bytes());
    put(chart, 7, 0, &[h.events, h.outputs]);
    put(chart, 10, 0, &h.instructions.to_le_bytes());
}

// A block of instruction i alone, which raises an output.
fn raise(chart: &mut [u8], place: u32, offset: u8, i: u8, output: u8) {
    put(chart, place, offset, &[i, 0, 1]);
    let instruction = [b'I', b'N', Op::Raise as u8, output];
    put(
        chart,
        places::instruction(COUNTS, i as u16),
        0,
        &instruction,
    );
}

fn states(chart: &mut [u8]) {
    for (s, (parent, kind, initial)) in (0..9).zip(STATES) {
        let place = places::state(StateNo(s));
        put(chart, place, 0, &[b'S', b'T', parent, kind as u8, initial]);
    }
    put(chart, places::state(StateNo(1)), 5, &[1]);
}

// What the states raise on entry and on exit.
fn actions(chart: &mut [u8]) {
    for s in 1..9 {
        let place = places::state(StateNo(s));
        raise(chart, place, 6, s, 10 + s);
        raise(chart, place, 12, s + 8, 20 + s);
    }
}

fn segments(chart: &mut [u8]) {
    for (t, (source, end)) in (0..5).zip(SEGMENTS) {
        let (from, source) = (source.kind(), source.number());
        let (to, end) = match end {
            End::State(s) => (0, s.0),
            End::Junction(j) => (1, j.0),
        };
        let place = places::segment(COUNTS, SegmentNo(t));
        put(chart, place, 0, &[b'T', b'R', from, source, to, end]);
    }
    raise(chart, places::segment(COUNTS, SegmentNo(0)), 15, 0, 1);
    raise(chart, places::segment(COUNTS, SegmentNo(1)), 15, 17, 2);
}

pub(crate) fn make(chart: &mut [u8]) {
    header(chart, COUNTS);
    states(chart);
    actions(chart);
    put(chart, places::junction(COUNTS, JunctionNo(0)), 0, b"JN");
    segments(chart);
}
