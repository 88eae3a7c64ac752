// The chart that is damaged, and where its records stand; and how the records of any chart are put.
use chart::kinds::Kind;
use chart::ops::Op;
use chart::places;
use chart::segments::{End, Source};
use rules::headers::Header;
use rules::numbers::{JunctionNo, SegmentNo, StateNo};

pub(crate) const ROOT: u32 = 12;

pub(crate) const STATE_1: u32 = ROOT + StateNo::RECORD;

pub(crate) const STATE_2: u32 = STATE_1 + StateNo::RECORD;

const STATE_3: u32 = STATE_2 + StateNo::RECORD;

pub(crate) const STATE_4: u32 = STATE_3 + StateNo::RECORD;

const STATE_5: u32 = STATE_4 + StateNo::RECORD;

pub(crate) const JUNCTION: u32 = STATE_5 + StateNo::RECORD;

pub(crate) const SEGMENT_0: u32 = JUNCTION + JunctionNo::RECORD;

pub(crate) const SEGMENT_1: u32 = SEGMENT_0 + SegmentNo::RECORD;

const SEGMENT_2: u32 = SEGMENT_1 + SegmentNo::RECORD;

pub(crate) const VARIABLE: u32 = SEGMENT_2 + SegmentNo::RECORD;

pub(crate) const PUSH: u32 = VARIABLE + Header::VARIABLE;

pub(crate) const STORE: u32 = PUSH + 2 * Header::INSTRUCTION;

pub(crate) const RAISE: u32 = PUSH + 3 * Header::INSTRUCTION;

pub(crate) const LOAD: u32 = PUSH + 4 * Header::INSTRUCTION;

pub(crate) const SEND: u32 = PUSH + 5 * Header::INSTRUCTION;

pub(crate) const ADD: u32 = PUSH + 8 * Header::INSTRUCTION;

const INSTRUCTIONS: u16 = 51;

pub(crate) const LENGTH: usize = PUSH as usize + 6 * INSTRUCTIONS as usize;

pub(crate) fn put(chart: &mut [u8], at: u32, bytes: &[u8]) {
    let first = at as usize;
    if let Some(here) = chart.get_mut(first..first + bytes.len()) {
        here.copy_from_slice(bytes);
    }
}

pub(crate) fn header(chart: &mut [u8], h: Header) {
    put(chart, 0, &[b'C', b'H', h.states, h.junctions]);
    put(chart, 4, &h.segments.to_le_bytes());
    put(chart, 6, &[h.variables, h.events, h.outputs]);
    put(chart, 10, &h.instructions.to_le_bytes());
}

fn block(chart: &mut [u8], at: u32, start: u16, count: u8) {
    let [low, high] = start.to_le_bytes();
    put(chart, at, &[low, high, count]);
}

pub(crate) fn state(chart: &mut [u8], s: u8, parent: u8, kind: Kind, initial: u8) {
    put(
        chart,
        places::state(StateNo(s)),
        &[b'S', b'T', parent, kind as u8, initial],
    );
}

fn segment(chart: &mut [u8], at: u32, source: Source, end: End, event: u8) {
    let (from, source) = (source.kind(), source.number());
    let (to, end) = match end {
        End::State(s) => (0, s.0),
        End::Junction(j) => (1, j.0),
    };
    put(chart, at, &[b'T', b'R', from, source, to, end, event]);
}

fn instruction(chart: &mut [u8], i: u16, op: Op, a: u8, b: i16) {
    let at = PUSH + Header::INSTRUCTION * i as u32;
    let [low, high] = b.to_le_bytes();
    put(chart, at, &[b'I', b'N', op as u8, a, low, high]);
}

// The root over 1 and 2, 2 over 3 and 4, 4 over 5.
fn states(chart: &mut [u8]) {
    state(chart, 0, 0, Kind::OneOf, 1);
    state(chart, 1, 0, Kind::Leaf, 0);
    state(chart, 2, 0, Kind::OneOf, 3);
    state(chart, 3, 2, Kind::Leaf, 0);
    state(chart, 4, 2, Kind::AllOf, 0);
    state(chart, 5, 4, Kind::Leaf, 0);
}

// 1 raises, fills the stack and adds; 2 keeps history and sends; 5 stores.
fn state_actions(chart: &mut [u8]) {
    block(chart, STATE_1 + 6, 3, 1);
    block(chart, STATE_1 + 9, 11, 32);
    block(chart, STATE_1 + 12, 6, 4);
    put(chart, STATE_2 + 5, &[1]);
    block(chart, STATE_2 + 9, 5, 1);
    block(chart, STATE_5 + 12, 1, 2);
}

// From 1 to the junction on event 1, with a condition and a send; from there to 2; inside 2 to 3 on event 2.
fn segments(chart: &mut [u8]) {
    let junction = JunctionNo(0);
    let (from, to) = (Source::Outer(StateNo(1)), End::Junction(junction));
    segment(chart, SEGMENT_0, from, to, 1);
    block(chart, SEGMENT_0 + 9, 0, 1);
    block(chart, SEGMENT_0 + 12, 5, 1);
    let (from, to) = (Source::Junction(junction), End::State(StateNo(2)));
    segment(chart, SEGMENT_1, from, to, 0);
    block(chart, SEGMENT_1 + 15, 1, 2);
    let (from, to) = (Source::Inner(StateNo(2)), End::State(StateNo(3)));
    segment(chart, SEGMENT_2, from, to, 2);
}

// What stands in the blocks; then 17 times push, 17 times store, and the ops that no block has.
fn code(chart: &mut [u8]) {
    let first = [
        (Op::Push, 0, 1),
        (Op::Push, 0, 5),
        (Op::Store, 0, 0),
        (Op::Raise, 1, 0),
        (Op::Load, 0, 0),
        (Op::Send, 1, 2),
        (Op::Push, 0, 1),
        (Op::Push, 0, 2),
        (Op::Add, 0, 0),
        (Op::Store, 0, 0),
    ];
    for (i, (op, a, b)) in (0..10).zip(first) {
        instruction(chart, i, op, a, b);
    }
    for i in 10..27 {
        instruction(chart, i, Op::Push, 0, 0);
    }
    for i in 27..44 {
        instruction(chart, i, Op::Store, 0, 0);
    }
    let others = [
        Op::Subtract,
        Op::Multiply,
        Op::Quotient,
        Op::Remainder,
        Op::Less,
        Op::Equal,
        Op::Not,
    ];
    for (i, op) in (44..51).zip(others) {
        instruction(chart, i, op, 0, 0);
    }
}

// A chart that is taken.
pub(crate) fn taken(chart: &mut [u8]) {
    let counts = Header {
        states: 6,
        junctions: 1,
        segments: 3,
        variables: 1,
        events: 2,
        outputs: 1,
        instructions: INSTRUCTIONS,
    };
    header(chart, counts);
    states(chart);
    state_actions(chart);
    put(chart, JUNCTION, b"JN");
    segments(chart);
    put(chart, VARIABLE, b"VA");
    code(chart);
}
