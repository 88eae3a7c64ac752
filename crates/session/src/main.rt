// The session program: it reads a session, which is a chart and events for one lift, and writes what the calls answer, a line
// each.
#![tactic(auto)]

ghost use Rattle.std.specs.Prelude.{◌≡◌, ℕ, true, take, IfSome};
ghost use Rattle.rules.specs.Session.{bad_session, event_lines, session};
ghost use Rattle.session.specs.Said.{after_events, after_chart, chart_text, Adds};

use output::Output;
use rules::images::Image;
use rules::items::Item;
use std::io::{Read, Write};

mod input; // what is read
mod lines; // a line of text
mod output; // what is written
mod records; // what a session is made of
mod saying; // the lines of the calls

fn say_bad<W: Write>(out: &mut Output<W>)
    ensures { Adds out.old out.new bad_session }
{
    out.put(b"bad session\n");
}

// A line for each event, up to a record that is none; how many lines were said.
fn say_events<W: Write>(
    out: &mut Output<W>,
    chart: &[u8],
    board: &mut [u8],
    trace: &mut [u8],
    events: &[u8],
) -> usize
    ensures leaves { record { board = board.new; trace = trace.new; lines = result } ≡ after_events chart.now board.old trace.old 0 events.now }
    ensures writes { Adds out.old out.new (event_lines chart.now board.old trace.old events.now) }
{
    let mut said: usize = 0;
    for record in events.chunks(records::EVENT) {
        if !records::is_event(record) {
            say_bad(out);
            return said + 1;
        }
        let line = saying::step(chart, board, trace, record[2]);
        out.put(line.text());
        said += 1;
    }
    said
}

// The chart's line, and the events' lines on a lift that is made fresh for it; how many these were.
fn say_chart<W: Write>(
    out: &mut Output<W>,
    chart: &[u8],
    board: &mut [u8],
    trace: &mut [u8],
    events: &[u8],
) -> usize
    ensures leaves { record { board = board.new; trace = trace.new; lines = result } ≡ after_chart chart.now board.old trace.old events.now }
    ensures writes { Adds out.old out.new (chart_text chart.now board.old trace.old events.now) }
{
    let said = saying::bound(chart);
    out.put(said.line.text());
    if !said.more {
        return 0;
    }
    afraulenc::fresh(chart, board, 0);
    say_events(out, chart, board, trace, events)
}

// A session is read, and what it says is written; whether no read failed.
fn say_session<R: Read, W: Write>(from: &mut R, out: &mut Output<W>) -> bool
    ensures all { result ≡ true → IfSome (R.remaining from.old) (λ given. Adds out.old out.new (session given)) }
    ensures some { IfSome (R.remaining from.old) (λ given. (n : ℕ) × Adds out.old out.new (session (take n given))) }
{
    let mut bytes = [0u8; records::MOST + 1]; // a byte more, to see that there is more
    let came = input::read_full(from, &mut bytes);
    let session = &bytes[..came.length];
    if records::is_bad(session) {
        say_bad(out);
        return came.whole;
    }
    let events = records::chart_end(session);
    let mut board = [0u8; Image::SIZE];
    let mut trace = [0u8; Item::SIZE * Item::MOST];
    say_chart(
        out,
        &session[records::CHART..events],
        &mut board,
        &mut trace,
        &session[events..],
    );
    came.whole
}

// Where a read fails, what came is taken for all, and where a line is not taken, the next ones follow: what is printed tells.
fn main(rt: HostRuntime) {
    let mut out = Output::new(rt.stdout());
    let _whole = say_session(&mut rt.stdin(), &mut out);
}
