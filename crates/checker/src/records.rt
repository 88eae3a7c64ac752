// Each record has its mark, and zero bytes where they belong.
ghost use Rattle.std.specs.Prelude.{◌≡◌, ◌&&◌, ◌+◌, [], ◌∷◌};
ghost use Rattle.rules.specs.Lists.{below, every};
ghost use Rattle.rules.specs.Chart as fields_of;
ghost use Rattle.rules.specs.Accept as rules;
ghost use Rattle.checker.specs.Parts.{letters_at};

use chart::{Chart, places};
use fields::Field;
use rules::numbers::{JunctionNo, SegmentNo, StateNo};

// The two letters of a mark stand at a place.
fn letters(chart: &Chart, place: u32, mark: &[u8; 2]) -> bool
    ensures { result ≡ letters_at chart.now mark.now place }
{
    let at = place as usize;
    u8::at(chart.bytes(), at) == mark[0] && u8::at(chart.bytes(), at + 1) == mark[1]
}

#[tactic(auto, unfolding(rules::specs::Accept::zero_at))]
fn zero(chart: &Chart, place: u32, offset: u8) -> bool
    ensures { result ≡ rules.zero_at chart.now (place + offset) }
{
    u8::at(chart.bytes(), place as usize + offset as usize) == 0
}

// A record with that mark, and zero bytes at these offsets. Which they are is said for each table apart: in one function every
// test would stand twice in its proof.
fn record(chart: &Chart, place: u32, mark: &[u8; 2], zeros: &[u8]) -> bool
    ensures { result ≡ letters_at chart.now mark.now place && every (λ z. rules.zero_at chart.now (place + z)) zeros.now }
{
    letters(chart, place, mark) && zeros.iter().all(|z| zero(chart, place, *z))
}

#[tactic(auto, unfolding(rules::specs::Bytes::ascii, rules::specs::Accept::marked))]
pub fn header(chart: &Chart) -> bool
    ensures { result ≡ rules.marked chart.now "CH" 0 }
{
    letters(chart, 0, b"CH")
}

fn states(chart: &Chart) -> bool
    ensures { result ≡ every (λ s. rules.record_right chart.now "ST" (15 ∷ []) (fields_of.state_at chart.now s)) (below (fields_of.states chart.now)) }
{
    (0..chart.header().states).all(|s| record(chart, places::state(StateNo(s)), b"ST", &[15]))
}

fn junctions(chart: &Chart) -> bool
    ensures { result ≡ every (λ j. rules.record_right chart.now "JN" (3 ∷ []) (fields_of.junction_at chart.now j)) (below (fields_of.junctions chart.now)) }
{
    let h = chart.header();
    (0..h.junctions).all(|j| record(chart, places::junction(h, JunctionNo(j)), b"JN", &[3]))
}

fn segments(chart: &Chart) -> bool
    ensures { result ≡ every (λ t. rules.record_right chart.now "TR" (7 ∷ 8 ∷ []) (fields_of.segment_at chart.now t)) (below (fields_of.segments chart.now)) }
{
    let h = chart.header();
    (0..h.segments).all(|t| record(chart, places::segment(h, SegmentNo(t)), b"TR", &[7, 8]))
}

fn variables(chart: &Chart) -> bool
    ensures { result ≡ every (λ v. rules.record_right chart.now "VA" [] (fields_of.variable_at chart.now v)) (below (fields_of.variables chart.now)) }
{
    let h = chart.header();
    (0..h.variables).all(|v| record(chart, places::variable(h, v), b"VA", &[]))
}

fn instructions(chart: &Chart) -> bool
    ensures { result ≡ every (λ i. rules.record_right chart.now "IN" [] (fields_of.instruction_at chart.now i)) (below (fields_of.instructions chart.now)) }
{
    let h = chart.header();
    (0..h.instructions).all(|i| record(chart, places::instruction(h, i), b"IN", &[]))
}

#[tactic(auto, unfolding(rules::specs::Lists::every, rules::specs::Lists::all, rules::specs::Accept::records_right))]
pub fn right(chart: &Chart) -> bool
    ensures { result ≡ rules.records_right chart.now }
{
    zero(chart, 0, 9)
        && states(chart)
        && junctions(chart)
        && segments(chart)
        && variables(chart)
        && instructions(chart)
}
