// Damaged charts, for every rule behind refusals 1 to 11, and what the checker answers. Each line begins with the number that
// the paper gives for the fault that it names; of two faults the lower one is named first.
#![tactic(auto)]

mod building; // the chart that is damaged
mod faults; // what is damaged in it

use building::LENGTH;
use chart::kinds::Kind;
use faults::FAULTS;
use rules::headers::Header;
use std::io;

fn answered(rt: &impl Print, what: &str, chart: &[u8]) -> io::Result<()> {
    let refusal = checker::refusal(chart);
    println!(rt; "{what}: {refusal}")
}

// Its first bytes alone, and a byte too many.
fn lengths(rt: &impl Print) -> io::Result<()> {
    let mut chart = [0u8; LENGTH + 1];
    building::taken(&mut chart);
    let cuts = [
        ("1 no byte", 0),
        ("1 one byte", 1),
        ("1 eleven bytes", 11),
        ("4 twelve bytes", 12),
        ("4 a byte short", LENGTH - 1),
        ("0 the whole chart", LENGTH),
        ("4 a byte more", LENGTH + 1),
    ];
    for (what, length) in cuts {
        answered(rt, what, &chart[..length.min(LENGTH + 1)])?;
    }
    chart[0] = b'c';
    answered(rt, "1 before 2", &chart[..11])
}

fn ones(rt: &impl Print) -> io::Result<()> {
    let mut chart = [255u8; 64];
    answered(rt, "2 all ones", &chart)?;
    building::put(&mut chart, 0, b"CH");
    answered(rt, "3 all ones behind the mark", &chart)
}

fn bare_headers(rt: &impl Print) -> io::Result<()> {
    let mut most = [0u8; 12];
    let counts = Header {
        junctions: Header::MOST_JUNCTIONS,
        segments: Header::MOST_SEGMENTS,
        variables: Header::MOST_VARIABLES,
        instructions: Header::MOST_INSTRUCTIONS,
        ..states_alone(Header::MOST_STATES)
    };
    building::header(&mut most, counts);
    answered(rt, "4 the largest counts, and no record", &most)?;
    let mut alone = [0u8; 28];
    chain(&mut alone, 1);
    answered(rt, "0 the root alone", &alone)
}

fn states_alone(states: u8) -> Header {
    Header {
        states,
        junctions: 0,
        segments: 0,
        variables: 0,
        events: 2,
        outputs: 1,
        instructions: 0,
    }
}

// So many states, each above the next.
fn chain(chart: &mut [u8], states: u8) {
    building::header(chart, states_alone(states));
    let last = states.saturating_sub(1);
    for s in 0..last {
        building::state(chart, s, s.saturating_sub(1), Kind::OneOf, s + 1);
    }
    building::state(chart, last, last.saturating_sub(1), Kind::Leaf, 0);
}

fn depths(rt: &impl Print) -> io::Result<()> {
    let mut deepest = [0u8; 156];
    chain(&mut deepest, 9);
    answered(rt, "0 depth 8", &deepest)?;
    let mut deeper = [0u8; 172];
    chain(&mut deeper, 10);
    answered(rt, "6 depth 9", &deeper)
}

// The chart with some bytes put to others.
fn damaged(
    rt: &impl Print,
    what: &str,
    mut chart: [u8; LENGTH],
    bytes: &[(u32, u8)],
) -> io::Result<()> {
    for &(at, byte) in bytes {
        building::put(&mut chart, at, &[byte]);
    }
    answered(rt, what, &chart)
}

fn main(rt: HostRuntime) -> io::Result<()> {
    lengths(&rt)?;
    ones(&rt)?;
    bare_headers(&rt)?;
    depths(&rt)?;
    let mut chart = [0u8; LENGTH];
    building::taken(&mut chart);
    for &(what, bytes) in &FAULTS {
        damaged(&rt, what, chart, bytes)?;
    }
    Ok(())
}
