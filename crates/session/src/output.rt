// What is written, text by text.
ghost use Rattle.std.specs.Prelude.{◌≡◌, true};
ghost use Rattle.session.specs.Said.{Adds};

use std::io::Write;
use std::marker::Model;

// What takes the texts, and whether it has taken all of each: it goes on after a failure, so this is no Result.
#[derive(Drop)]
pub struct Output<W: Write> {
    to: W,
    whole: bool,
}

impl<W: Write> Model for Output<W> {
    ghost use Rattle.session.specs.Said.{Taken};

    ghost Value = { Taken };

    ghost view = { λ a. record { whole = a.whole; contents = W.contents a.to } };
}

impl<W: Write> Output<W> {
    // No text yet.
    pub fn new(to: W) -> Self
        ensures { result ≡ record { whole = true; contents = W.contents to } }
    {
        Output { to, whole: true }
    }

    // A text behind the others. Where it is not taken, the next ones may be.
    pub fn put(&mut self, text: &[u8])
        ensures { Adds self.old self.new text.now }
    {
        if self.to.write_all(text).is_err() {
            self.whole = false;
        }
    }
}
