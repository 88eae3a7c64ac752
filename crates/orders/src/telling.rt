// What is printed of a call that was not refused.
use crate::building::COUNTS;
use doing::Now;
use rules::items::Item;
use rules::numbers::{SegmentNo, StateNo};
use std::{fmt, io};

// What the traces have, each kind by an item of it.
const KINDS: [(Item, &str); 4] = [
    (Item::Entered(StateNo(0)), "entered"),
    (Item::Left(StateNo(0)), "left"),
    (Item::Transition(SegmentNo(0)), "segment"),
    (Item::Raised(0), "raised"),
];

// A word of a trace.
#[derive(Clone, Copy)]
struct Noted(u32);

impl fmt::Display for Noted {
    fn fmt<W: fmt::Write>(&self, f: &mut fmt::Formatter<W>) -> fmt::Result {
        let kind = self.0 / Item::KIND_PLACE;
        let what = KINDS
            .iter()
            .find(|(item, _)| item.word() / Item::KIND_PLACE == kind)
            .map_or("another", |&(_, name)| name);
        write!(f, "{what} {}", self.0 % Item::KIND_PLACE)
    }
}

pub(crate) fn went(rt: &impl Print, what: &str, paid: u32, now: &Now) -> io::Result<()> {
    print!(rt; "{what}: {paid} units:")?;
    for &word in now.items() {
        print!(rt; " {}", Noted(word))?;
    }
    println!(rt)?;
    states(rt, now)
}

// The active states, and the children that states have recorded.
fn states(rt: &impl Print, now: &Now) -> io::Result<()> {
    print!(rt; "  active")?;
    for s in 0..COUNTS.states {
        if now.is_active(StateNo(s)) {
            print!(rt; " {s}")?;
        }
    }
    print!(rt; "; recorded")?;
    for s in 0..COUNTS.states {
        let child = now.recorded(StateNo(s)).0;
        if child != 0 {
            print!(rt; " {s}:{child}")?;
        }
    }
    println!(rt)
}
