// A state's fields, a function for each by the paper's name.
ghost use Rattle.std.specs.Prelude.{◌≡◌, ◌+◌};
ghost use Rattle.rules.specs.Bytes.{byte};
ghost use Rattle.rules.specs.Chart as rules;
ghost use Rattle.chart.specs.Places.{state_place};
ghost use Rattle.chart.specs.Read.{block_of};

use crate::blocks::Block;
use crate::kinds::Kind;
use crate::{blocks, places};
use fields::Field;
use rules::numbers::StateNo;

fn byte_of(chart: &[u8], s: StateNo, offset: u8) -> u8
    ensures { result ≡ byte chart.now (state_place s.0 + offset) }
{
    u8::at(chart, places::state(s) as usize + offset as usize)
}

fn block_of(chart: &[u8], s: StateNo, offset: u8) -> Block
    ensures { block_of result ≡ rules.block_at chart.now (state_place s.0 + offset) }
{
    blocks::at(chart, places::state(s), offset)
}

pub fn parent(chart: &[u8], s: StateNo) -> StateNo
    ensures { result.0 ≡ rules.parent chart.now s.0 }
{
    StateNo(byte_of(chart, s, 2))
}

// The byte as it stands there; `Kind` names it.
pub fn kind(chart: &[u8], s: StateNo) -> u8
    ensures { result ≡ rules.kind chart.now s.0 }
{
    byte_of(chart, s, 3)
}

pub fn initial(chart: &[u8], s: StateNo) -> StateNo
    ensures { result.0 ≡ rules.initial chart.now s.0 }
{
    StateNo(byte_of(chart, s, 4))
}

pub fn history(chart: &[u8], s: StateNo) -> u8
    ensures { result ≡ rules.history chart.now s.0 }
{
    byte_of(chart, s, 5)
}

pub fn is_one_of(chart: &[u8], s: StateNo) -> bool
    ensures { result ≡ rules.is_one_of chart.now s.0 }
{
    kind(chart, s) == Kind::OneOf as u8
}

pub fn keeps_history(chart: &[u8], s: StateNo) -> bool
    ensures { result ≡ rules.keeps_history chart.now s.0 }
{
    history(chart, s) == 1
}

pub fn entry(chart: &[u8], s: StateNo) -> Block
    ensures { block_of result ≡ rules.entry chart.now s.0 }
{
    block_of(chart, s, 6)
}

pub fn during(chart: &[u8], s: StateNo) -> Block
    ensures { block_of result ≡ rules.during chart.now s.0 }
{
    block_of(chart, s, 9)
}

pub fn exit(chart: &[u8], s: StateNo) -> Block
    ensures { block_of result ≡ rules.exit chart.now s.0 }
{
    block_of(chart, s, 12)
}
