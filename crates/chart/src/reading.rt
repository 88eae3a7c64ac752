// A chart: its bytes, with its own header, which is read once. A contract sees the bytes.
use crate::blocks::Block;
use crate::kinds::Kind;
use crate::segments::{End, Source};
use crate::{headers, instructions, junctions, kinds, segments, states, tree, variables};
use rules::headers::Header;
use rules::numbers::{JunctionNo, SegmentNo, StateNo};
use std::marker::Model;

#[derive(Drop)]
pub struct Chart<'a> {
    bytes: &'a [u8],
    header: Header,
}

impl<'a> Model for Chart<'a> {
    ghost use Rattle.std.specs.Prelude.{◌≡◌};
    ghost use Rattle.rules.specs.Bytes.{Bytes};
    ghost use Rattle.chart.specs.Places.{header_of};

    ghost Value = { Bytes };

    ghost view = { λ c. c.bytes.now };

    ghost invariant = { λ c. c.header ≡ header_of c.bytes.now };
}

impl<'a> Chart<'a> {
    ghost use Rattle.std.specs.Prelude.{◌≡◌, ◌+◌, ◌*◌, take, drop};
    ghost use Rattle.rules.specs.Lists.{is_in};
    ghost use Rattle.rules.specs.Chart as rules;
    ghost use Rattle.chart.specs.Places.{header_of, instruction_place};
    ghost use Rattle.chart.specs.Read.{block_of, kind_named, source_named, destination_named, end_named, kind_of, number_of, children_from, starting_from, first_state, first_segment};

    pub fn read(bytes: &'a [u8]) -> Chart<'a>
        ensures { result ≡ bytes.now }
    {
        let header = headers::read(bytes);
        Chart { bytes, header }
    }

    pub fn bytes(&self) -> &'a [u8]
        ensures { result.now ≡ self.now }
    {
        self.bytes
    }

    // The counts.
    pub fn header(&self) -> Header
        ensures { result ≡ header_of self.now }
    {
        self.header
    }

    // A state's fields.
    pub fn parent(&self, s: StateNo) -> StateNo
        ensures { result.0 ≡ rules.parent self.now s.0 }
    {
        states::parent(self.bytes, s)
    }

    pub fn kind(&self, s: StateNo) -> Option<Kind>
        ensures { result ≡ kind_named (rules.kind self.now s.0) }
    {
        kinds::named(states::kind(self.bytes, s))
    }

    pub fn initial(&self, s: StateNo) -> StateNo
        ensures { result.0 ≡ rules.initial self.now s.0 }
    {
        states::initial(self.bytes, s)
    }

    pub fn history(&self, s: StateNo) -> u8
        ensures { result ≡ rules.history self.now s.0 }
    {
        states::history(self.bytes, s)
    }

    pub fn is_one_of(&self, s: StateNo) -> bool
        ensures { result ≡ rules.is_one_of self.now s.0 }
    {
        states::is_one_of(self.bytes, s)
    }

    pub fn keeps_history(&self, s: StateNo) -> bool
        ensures { result ≡ rules.keeps_history self.now s.0 }
    {
        states::keeps_history(self.bytes, s)
    }

    pub fn entry(&self, s: StateNo) -> Block
        ensures { block_of result ≡ rules.entry self.now s.0 }
    {
        states::entry(self.bytes, s)
    }

    pub fn during(&self, s: StateNo) -> Block
        ensures { block_of result ≡ rules.during self.now s.0 }
    {
        states::during(self.bytes, s)
    }

    pub fn exit(&self, s: StateNo) -> Block
        ensures { block_of result ≡ rules.exit self.now s.0 }
    {
        states::exit(self.bytes, s)
    }

    // Whether a is s, or is above s.
    pub fn over(&self, a: StateNo, s: StateNo) -> bool
        ensures { result ≡ rules.over self.now a.0 s.0 }
    {
        tree::over(self.bytes, a, s)
    }

    // The first child of a state.
    #[tactic(auto, unfolding(crate::specs::Read::children_from, rules::specs::Chart::children))]
    pub fn first_child(&self, p: StateNo) -> Option<StateNo>
        ensures { result ≡ first_state (rules.children self.now p.0) }
    {
        tree::child(self.bytes, self.header, p, 1)
    }

    #[tactic(auto, unfolding(crate::specs::Read::children_from, rules::specs::Chart::children))]
    pub fn is_child(&self, s: StateNo, p: StateNo) -> bool
        ensures { result ≡ is_in s.0 (rules.children self.now p.0) }
    {
        tree::is_child(self.bytes, self.header, s, p)
    }

    pub fn junction_parent(&self, j: JunctionNo) -> StateNo
        ensures { result.0 ≡ rules.junction_parent self.now j.0 }
    {
        junctions::parent(self.bytes, self.header, j)
    }

    // A segment's fields.
    pub fn source(&self, t: SegmentNo) -> Option<Source>
        ensures { result ≡ source_named (rules.source_kind self.now t.0) (rules.source self.now t.0) }
    {
        segments::source_of(self.bytes, self.header, t)
    }

    pub fn destination(&self, t: SegmentNo) -> Option<End>
        ensures { result ≡ destination_named (rules.destination_kind self.now t.0) (rules.destination self.now t.0) }
    {
        segments::destination_of(self.bytes, self.header, t)
    }

    // Where it leads, as a step reads it: every kind but a state's is a junction's.
    pub fn end(&self, t: SegmentNo) -> End
        ensures { result ≡ end_named (rules.destination_kind self.now t.0) (rules.destination self.now t.0) }
    {
        segments::end_of(self.bytes, self.header, t)
    }

    pub fn event(&self, t: SegmentNo) -> u8
        ensures { result ≡ rules.event self.now t.0 }
    {
        segments::event(self.bytes, self.header, t)
    }

    pub fn condition(&self, t: SegmentNo) -> Block
        ensures { block_of result ≡ rules.condition self.now t.0 }
    {
        segments::condition(self.bytes, self.header, t)
    }

    pub fn condition_action(&self, t: SegmentNo) -> Block
        ensures { block_of result ≡ rules.condition_action self.now t.0 }
    {
        segments::condition_action(self.bytes, self.header, t)
    }

    pub fn transition_action(&self, t: SegmentNo) -> Block
        ensures { block_of result ≡ rules.transition_action self.now t.0 }
    {
        segments::transition_action(self.bytes, self.header, t)
    }

    // The first segment that starts there, and the next of the list that a segment stands in.
    pub fn first(&self, source: Source) -> Option<SegmentNo>
        ensures { result ≡ first_segment (starting_from self.now (header_of self.now) (kind_of source) (number_of source) 0) }
    {
        segments::starting(self.bytes, self.header, source, 0)
    }

    pub fn after(&self, t: SegmentNo) -> Option<SegmentNo>
        ensures { result ≡ first_segment (starting_from self.now (header_of self.now) (rules.source_kind self.now t.0) (rules.source self.now t.0) (t.0 + 1)) }
    {
        segments::after(self.bytes, self.header, t)
    }

    pub fn initial_value(&self, v: u8) -> u32
        ensures { result ≡ rules.initial_value self.now v }
    {
        variables::initial_value(self.bytes, self.header, v)
    }

    // A block's part of the chart, as far as the chart has it.
    pub fn code(&self, block: Block) -> &'a [u8]
        ensures { result.now ≡ take (6 * block.count) (drop (rules.instruction_at self.now block.start) self.now) }
    {
        instructions::of_block(self.bytes, self.header, block)
    }
}
