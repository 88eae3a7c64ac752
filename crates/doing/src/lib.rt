// A step as it goes: the image, the trace and the counts, and what can be refused.
#![tactic(auto)]

use image::{active, history, variables};
use rules::items::Item;
use rules::numbers::StateNo;
use rules::refusals::Refusal;

// The units left, and how many items were noted.
#[derive(Clone, Copy, PartialEq, Eq, Debug)]
pub struct Counts {
    pub units: u32,
    pub items: usize,
}

impl Counts {
    // The largest allowance of a step, and the largest bound.
    pub const MOST_UNITS: u32 = 1_000_000;
}

#[derive(Drop)]
pub struct Now<'a> {
    image: &'a mut [u8],
    trace: &'a mut [u32],
    counts: Counts,
}

impl<'a> Now<'a> {
    ghost use Rattle.std.specs.Prelude.{◌≡◌, ◌++◌, ◌-◌, length, take, replicate, OnErr};
    ghost use Rattle.rules.specs.Types.{word_of};
    ghost use Rattle.rules.specs.Image as image-rules;
    ghost use Rattle.rules.specs.Doing as rules;
    ghost use Rattle.doing.specs.Held.{now_of, held, noted, Same};
    ghost use Rattle.doing.specs.Outcomes.{outcome_of, with_image};

    pub fn new(image: &'a mut [u8], trace: &'a mut [u32], counts: Counts) -> Now<'a>
        ensures value { held result ≡ now_of image.old trace.old counts }
        ensures same { (result.image.ghost_name ≡ image.entry.ghost_name) × (result.trace.ghost_name ≡ trace.entry.ghost_name) }
    {
        Now {
            image,
            trace,
            counts,
        }
    }

    pub fn image(&self) -> &[u8]
        ensures { result.now ≡ (held self.now).image }
    {
        self.image
    }

    pub fn units(&self) -> u32
        ensures { result ≡ (held self.now).units }
    {
        self.counts().units
    }

    // The items noted, as far as the trace has them.
    pub fn items(&self) -> &[u32]
        ensures value { result.now ≡ take self.now.counts.items self.now.trace.now }
        ensures told { (held self.now).trace ≡ result.now ++ replicate (length (held self.now).trace - length result.now) 0 }
    {
        &self.trace[..self.counts.items.min(self.trace.len())]
    }

    // The units left, and how many items were noted.
    pub fn counts(&self) -> Counts
        ensures { (result.units ≡ (held self.now).units) × (result.items ≡ length (held self.now).trace) }
    {
        Counts {
            units: self.counts.units,
            items: self.counts.items,
        }
    }

    // One unit is paid, or 16.
    pub fn pay(&mut self) -> Result<(), Refusal>
        ensures came { outcome_of result (held self.new) ≡ rules.pay (held self.old) }
        ensures kept { OnErr result (held self.new ≡ held self.old) }
        ensures same { Same self.old self.new }
        ensures untouched { (self.new.image.now ≡ self.old.image.now) × (self.new.trace.now ≡ self.old.trace.now) }
    {
        if self.counts.units == 0 {
            return Err(Refusal::NoUnit);
        }
        self.counts.units -= 1;
        Ok(())
    }

    // One item is noted, or 20.
    pub fn note(&mut self, item: Item) -> Result<(), Refusal>
        ensures came { outcome_of result (held self.new) ≡ noted (word_of item) (held self.old) }
        ensures kept { OnErr result (held self.new ≡ held self.old) }
        ensures same { Same self.old self.new }
    {
        self.note_word(item.word())
    }

    // The same by its word: the lent words are all the room there is.
    pub fn note_word(&mut self, word: u32) -> Result<(), Refusal>
        ensures came { outcome_of result (held self.new) ≡ noted word (held self.old) }
        ensures kept { OnErr result (held self.new ≡ held self.old) }
        ensures same { Same self.old self.new }
    {
        let at = self.counts.items;
        if self.trace.len() <= at {
            return Err(Refusal::NoRoom);
        }
        self.trace[at] = word;
        self.counts.items = at + 1;
        Ok(())
    }

    // The image's fields, and changes of them.
    pub fn not_started(&self) -> bool
        ensures { result ≡ image-rules.not_started (held self.now).image }
    {
        active::not_started(self.image)
    }

    pub fn is_active(&self, s: StateNo) -> bool
        ensures { result ≡ image-rules.is_active (held self.now).image s.0 }
    {
        active::is_active(self.image, s)
    }

    pub fn recorded(&self, s: StateNo) -> StateNo
        ensures { result.0 ≡ image-rules.recorded (held self.now).image s.0 }
    {
        history::recorded(self.image, s)
    }

    pub fn variable(&self, v: u8) -> i32
        ensures { result ≡ image-rules.variable (held self.now).image v }
    {
        variables::value(self.image, v)
    }

    pub fn activate(&mut self, s: StateNo)
        ensures value { held self.new ≡ with_image (image-rules.activate (held self.old).image s.0) (held self.old) }
        ensures same { Same self.old self.new }
    {
        active::activate(self.image, s);
    }

    pub fn deactivate(&mut self, s: StateNo)
        ensures value { held self.new ≡ with_image (image-rules.deactivate (held self.old).image s.0) (held self.old) }
        ensures same { Same self.old self.new }
    {
        active::deactivate(self.image, s);
    }

    pub fn record_child(&mut self, p: StateNo, s: StateNo)
        ensures value { held self.new ≡ with_image (image-rules.record_child (held self.old).image p.0 s.0) (held self.old) }
        ensures same { Same self.old self.new }
    {
        history::record_child(self.image, p, s);
    }

    pub fn set_variable(&mut self, v: u8, z: i32)
        ensures value { held self.new ≡ with_image (image-rules.set_variable (held self.old).image v z) (held self.old) }
        ensures same { Same self.old self.new }
    {
        variables::set(self.image, v, z);
    }
}
