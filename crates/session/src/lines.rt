// A line of text: numbers, and its end.
use fields::Field;
use rules::items::Item;
use std::marker::Model;

// The digits of a u64.
const DIGITS: usize = 20;

// A refusal, units, a count and the items, each with a space or the line's end behind it.
const LONGEST: usize = (3 + Item::MOST) * (DIGITS + 1);

// Its text, in room for the longest.
#[derive(Drop)]
pub struct Line {
    bytes: [u8; LONGEST],
    length: usize,
}

impl Model for Line {
    ghost use Rattle.std.specs.Prelude.{◌≤◌, take};
    ghost use Rattle.rules.specs.Bytes.{Bytes};
    ghost use Rattle.session.specs.Said.{longest};

    ghost Value = { Bytes };

    ghost view = { λ l. take l.length l.bytes };

    ghost invariant = { λ l. l.length ≤ longest };
}

impl Line {
    ghost use Rattle.std.specs.Prelude.{◌≡◌, [], ◌∷◌, ◌++◌, ◌+◌, ◌*◌, ◌≤◌, length};
    ghost use Rattle.rules.specs.Bytes.{ascii};
    ghost use Rattle.rules.specs.Session.{decimal, items_in};
    ghost use Rattle.session.specs.Said.{longest, spaced};

    pub fn new() -> Line
        ensures { result ≡ [] }
    {
        Line {
            bytes: [0; LONGEST],
            length: 0,
        }
    }

    pub fn text(&self) -> &[u8]
        ensures { result.now ≡ self.now }
    {
        &self.bytes[..self.length]
    }

    fn push(&mut self, b: u8)
        requires { length self.old + 1 ≤ longest }
        ensures { self.new ≡ self.old ++ b ∷ [] }
    {
        self.bytes[self.length] = b;
        self.length += 1;
    }

    // A number in at most so many digits.
    fn digits(&mut self, n: u64, most: usize)
        requires { length self.old + most ≤ longest }
        ensures { self.new ≡ self.old ++ decimal most n }
    {
        if most == 0 {
            return;
        }
        if 10 <= n {
            self.digits(n / 10, most - 1);
        }
        self.push(b'0' + (n % 10) as u8);
    }

    pub fn number(&mut self, n: u64)
        requires { length self.old + 20 ≤ longest }
        ensures { self.new ≡ self.old ++ decimal 20 n }
    {
        self.digits(n, DIGITS);
    }

    // A number behind another.
    pub fn next(&mut self, n: u64)
        requires { length self.old + 21 ≤ longest }
        ensures { self.new ≡ self.old ++ (ascii " " ++ decimal 20 n) }
    {
        self.push(b' ');
        self.number(n);
    }

    // The first items of a trace, behind another number; past the trace's end stands 0.
    pub fn items(&mut self, trace: &[u8], items: usize)
        requires { length self.old + 21 * items ≤ longest }
        ensures { self.new ≡ self.old ++ spaced (items_in items trace.now) }
    {
        for i in 0..items {
            self.next(u32::at(trace, Item::SIZE * i) as u64);
        }
    }

    #[tactic(auto, unfolding(rules::specs::Bytes::ascii))]
    pub fn end(&mut self)
        requires { length self.old + 1 ≤ longest }
        ensures { self.new ≡ self.old ++ ascii "\n" }
    {
        self.push(b'\n');
    }
}
