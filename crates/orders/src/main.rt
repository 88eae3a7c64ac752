// Who is entered and left, and in which order: a chart with one-of, all-of and history states, each of which but the root
// raises 10 plus its number on entry and 20 plus it on exit. Each line is what was done, the units paid and the trace; the
// next one has the active states and the recorded children.
#![tactic(auto)]

ghost use Rattle.doing.specs.Held.{Same};

mod building; // the chart
mod telling; // what is printed

use chart::Chart;
use doing::{Counts, Now};
use moves::{entering, firing, leaving};
use rules::images::Image;
use rules::numbers::StateNo;
use rules::refusals::Refusal;
use std::io;

const ROOT: StateNo = StateNo(0);

fn enter_root(chart: &Chart, now: &mut Now) -> Result<(), Refusal>
    ensures { Same now.old now.new }
{
    entering::enter(chart, now, StateNo::LEVELS, ROOT, ROOT)
}

fn fire(chart: &Chart, now: &mut Now, source: u8, target: u8, path: &[u16]) -> Result<(), Refusal>
    ensures { Same now.old now.new }
{
    firing::fire(chart, now, StateNo(source), StateNo(target), path)
}

fn leave_all(chart: &Chart, now: &mut Now) -> Result<(), Refusal>
    ensures { Same now.old now.new }
{
    leaving::leave_children(chart, now, StateNo::LEVELS, ROOT)
}

fn enter_all(chart: &Chart, now: &mut Now) -> Result<(), Refusal>
    ensures { Same now.old now.new }
{
    entering::enter_children(chart, now, StateNo::LEVELS, ROOT, ROOT)
}

// The chart, and the image that each step leaves to the next one.
#[derive(Drop)]
struct Run<'a> {
    chart: Chart<'a>,
    image: [u8; Image::SIZE],
}

impl<'a> Run<'a> {
    // Takes a step with so many units and with room for so many items, 32 at most, and tells what came of it.
    // The step keeps the image and the trace that it is lent.
    fn within<F: FnOnce(&Chart, &mut Now) -> Result<(), Refusal>>(
        &mut self,
        rt: &impl Print,
        what: &str,
        units: u32,
        room: usize,
        step: F,
    ) -> io::Result<()>
        requires callable { F.IsAlwaysCallable step }
        requires keeps { (chart : _) (before : _) (r : _) (after : _) → F.post step chart before r after → Same before.now after.now }
    {
        let mut trace = [0u32; 32];
        let trace = &mut trace[..room.min(32)];
        let mut now = Now::new(&mut self.image, trace, Counts { units, items: 0 });
        match step(&self.chart, &mut now) {
            Ok(()) => telling::went(rt, what, units.saturating_sub(now.units()), &now),
            Err(why) => println!(rt; "{what}: refused {}", why.number()),
        }
    }

    fn tell<F: FnOnce(&Chart, &mut Now) -> Result<(), Refusal>>(
        &mut self,
        rt: &impl Print,
        what: &str,
        step: F,
    ) -> io::Result<()>
        requires callable { F.IsAlwaysCallable step }
        requires keeps { (chart : _) (before : _) (r : _) (after : _) → F.post step chart before r after → Same before.now after.now }
    {
        self.within(rt, what, 100, 32, step)
    }
}

fn main(rt: HostRuntime) -> io::Result<()> {
    let mut bytes = [0u8; building::LENGTH];
    building::make(&mut bytes);
    println!(rt; "chart: {}", checker::refusal(&bytes))?;
    let mut run = Run {
        chart: Chart::read(&bytes),
        image: [0u8; Image::SIZE],
    };
    let limits = [
        ("the root, 10 units", 10, 11),
        ("the root, room for 10 items", 11, 10),
        ("the root", 11, 11),
    ];
    for (what, units, room) in limits {
        run.image.fill(0);
        run.within(&rt, what, units, room, enter_root)?;
    }
    run.tell(&rt, "3 to 7", |c, n| fire(c, n, 3, 7, &[0]))?;
    run.tell(&rt, "7 to 3", |c, n| fire(c, n, 7, 3, &[1]))?;
    run.tell(&rt, "3 to 7 again", |c, n| fire(c, n, 3, 7, &[0]))?;
    run.tell(&rt, "1 to itself", |c, n| fire(c, n, 1, 1, &[2]))?;
    let what = "6 to 3 by the root's junction";
    run.tell(&rt, what, |c, n| fire(c, n, 6, 3, &[3, 4]))?;
    run.tell(&rt, "all below the root left", leave_all)?;
    run.tell(&rt, "all below the root entered", enter_all)
}
