// The path of a search: the segments that passed, in order.
ghost use Rattle.std.specs.Prelude.{◌≡◌, ◌≤◌, ◌<◌, [], ◌∷◌, ◌++◌, length};
ghost use Rattle.std.specs.Result.{MatchResult};
ghost use Rattle.std.specs.Option.{MatchOption};
ghost use Rattle.rules.specs.declared.refusals.Refusal.TheVariants.{LongPath};

use rules::numbers::SegmentNo;
use rules::refusals::Refusal;
use std::marker::Model;

#[derive(Drop)]
pub struct Path {
    segments: [u16; SegmentNo::LONGEST_PATH],
    length: usize,
}

impl Model for Path {
    ghost use Rattle.std.specs.Prelude.{List, ℕ, ◌≤◌, take};

    ghost Value = { List ℕ };

    ghost view = { λ p. take p.length p.segments };

    ghost invariant = { λ p. p.length ≤ 128 };
}

impl Path {
    pub fn new() -> Path
        ensures { result ≡ [] }
    {
        Path {
            segments: [0; SegmentNo::LONGEST_PATH],
            length: 0,
        }
    }

    // One more at its end, or 19 where it is as long as a path may be.
    pub fn push(&mut self, t: SegmentNo) -> Result<(), Refusal>
        ensures { MatchResult result (λ _. (length self.old < 128) × (self.new ≡ self.old ++ t.0 ∷ [])) (λ why. (128 ≤ length self.old) × (why ≡ LongPath) × (self.new ≡ self.old)) }
    {
        if self.length == SegmentNo::LONGEST_PATH {
            return Err(Refusal::LongPath);
        }
        self.segments[self.length] = t.0;
        self.length += 1;
        Ok(())
    }

    // Its last segment is taken off.
    pub fn pop(&mut self) -> Option<SegmentNo>
        ensures { MatchOption result ((self.old ≡ []) × (self.new ≡ [])) (λ t. self.old ≡ self.new ++ t.0 ∷ []) }
    {
        if self.length == 0 {
            return None;
        }
        self.length -= 1;
        Some(SegmentNo(self.segments[self.length]))
    }

    pub fn as_slice(&self) -> &[u16]
        ensures { result.now ≡ self.now }
    {
        &self.segments[..self.length]
    }
}
