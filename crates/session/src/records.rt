// What a session is made of: SE and the chart's length, the chart, and a record for each event.
ghost use Rattle.std.specs.Prelude.{◌≡◌, ◌+◌};
ghost use Rattle.rules.specs.Bytes.{field};
ghost use Rattle.rules.specs.Session.{is_bad};
ghost use Rattle.session.specs.Said.{starts_with_event};

use fields::Field;

// The bytes of the longest session.
pub const MOST: usize = 16384;

// Where the chart starts.
pub const CHART: usize = 4;

// The bytes of an event's record: EV and the event.
pub const EVENT: usize = 3;

// The place behind the chart.
pub fn chart_end(session: &[u8]) -> usize
    ensures { result ≡ 4 + field 2 session.now 2 }
{
    CHART + u16::at(session, 2) as usize
}

// Too long, without its mark, or without its whole chart.
#[tactic(auto, unfolding(rules::specs::Session::is_bad, rules::specs::Accept::marked, rules::specs::Bytes::ascii))]
pub fn is_bad(session: &[u8]) -> bool
    ensures { result ≡ is_bad session.now }
{
    MOST < session.len() || !session.starts_with(b"SE") || session.len() < chart_end(session)
}

// Whether an event's record comes next, whole.
#[tactic(auto, unfolding(rules::specs::Accept::marked, rules::specs::Bytes::ascii))]
pub fn is_event(events: &[u8]) -> bool
    ensures { result ≡ starts_with_event events.now }
{
    EVENT <= events.len() && events.starts_with(b"EV")
}
