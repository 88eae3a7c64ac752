// The line of a call: the call is made, and its answer is taken apart and put as text.
ghost use Rattle.std.specs.Prelude.{not, ◌≡◌};
ghost use Rattle.rules.specs.Doing.{most_units};
ghost use Rattle.rules.specs.Lists.{within};
ghost use Rattle.rules.specs.Calls.{bound_call, step_call};
ghost use Rattle.session.specs.Said.{bound_line, told};

use crate::lines::Line;
use doing::Counts;

// A chart's line, and whether events follow: a refused chart has its line too.
#[derive(Drop)]
pub struct Said {
    pub line: Line,
    pub more: bool,
}

// Refusal and bound. A session with a refused chart ends there.
pub fn bound(chart: &[u8]) -> Said
    ensures line_value { result.line ≡ bound_line chart.now }
    ensures more_value { result.more ≡ not (within 1 11 (bound_call chart.now).refusal.number) }
{
    let answer = afraulenc::bound(chart);
    let refusal = answer % 256;
    let mut line = Line::new();
    line.number(refusal);
    line.next(answer / 256);
    line.end();
    Said {
        line,
        more: !(1..=11).contains(&refusal),
    }
}

// Refusal, units, how many items, and the items.
pub fn step(chart: &[u8], board: &mut [u8], trace: &mut [u8], event: u8) -> Line
    ensures { record { said = result; board = board.new; trace = trace.new } ≡ told (step_call chart.now board.old trace.old 0 event most_units) }
{
    let answer = afraulenc::step(chart, board, trace, 0, event as u32, Counts::MOST_UNITS);
    let items = answer / 256 % 512;
    let mut line = Line::new();
    line.number(answer % 256);
    line.next(answer / 131072);
    line.next(items);
    line.items(trace, items as usize);
    line.end();
    line
}
