// The active bits: state n is bit n.
ghost use Rattle.std.specs.Prelude.{◌≡◌, ◌+◌, ◌/◌};
ghost use Rattle.rules.specs.Image as rules;

use fields::Field;
use rules::images::Image;
use rules::numbers::StateNo;

fn place(s: StateNo) -> usize
    ensures { result ≡ 2 + s.0 / 8 }
{
    Image::ACTIVE + (s.0 as usize) / 8
}

pub fn is_active(image: &[u8], s: StateNo) -> bool
    ensures { result ≡ rules.is_active image.now s.0 }
{
    let byte = u8::at(image, place(s));
    (byte >> (s.0 % 8)) % 2 == 1
}

pub fn activate(image: &mut [u8], s: StateNo)
    ensures { image.new ≡ rules.activate image.old s.0 }
{
    let byte = u8::at(image, place(s));
    let k = s.0 % 8;
    if (byte >> k) % 2 != 1 {
        (byte + (1u8 << k)).put(image, place(s));
    }
}

pub fn deactivate(image: &mut [u8], s: StateNo)
    ensures { image.new ≡ rules.deactivate image.old s.0 }
{
    let byte = u8::at(image, place(s));
    let k = s.0 % 8;
    if (byte >> k) % 2 == 1 {
        (byte - (1u8 << k)).put(image, place(s));
    }
}

// Whether the active bits are all zero with all history zero.
pub fn not_started(image: &[u8]) -> bool
    ensures { result ≡ rules.not_started image.now }
{
    (Image::ACTIVE..Image::VARIABLES).all(|i| u8::at(image, i) == 0)
}
