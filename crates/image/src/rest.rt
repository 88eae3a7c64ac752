// Places beyond the chart's counts are zero.
ghost use Rattle.std.specs.Prelude.{◌≡◌, ◌&&◌, not, ◌+◌, ◌*◌, eqb};
ghost use Rattle.rules.specs.Bytes.{field};
ghost use Rattle.rules.specs.Lists.{range, every};
ghost use Rattle.rules.specs.Accept.{zero_at};
ghost use Rattle.rules.specs.Chart.{Chart, most_states, most_variables};
ghost use Rattle.rules.specs.Image as rules;
ghost use Rattle.chart.specs.Places.{header_of};

use fields::Field;
use rules::headers::Header;
use rules::images::Image;

// Whether all bytes of a part are zero. There is no early way out, so that many can be looked at at once.
fn zeros(part: &[u8]) -> bool
    ensures { result ≡ every (λ b. eqb b 0) part.now }
{
    part.iter().fold(true, |zero, b| zero & (*b == 0))
}

// Whether the bytes from a place up to another are zero; those past the end are.
fn zeros_between(image: &[u8], from: usize, to: usize) -> bool
    ensures { result ≡ every (zero_at image.now) (range from to) }
{
    let end = to.min(image.len());
    end <= from || zeros(&image[from..end])
}

// Whether the states from a number on are inactive: the rest of one byte of bits, then whole bytes.
fn inactive(image: &[u8], from: u8) -> bool
    ensures { result ≡ every (λ s. not (rules.is_active image.now s)) (range from most_states) }
{
    if Header::MOST_STATES <= from {
        return true;
    }
    let place = Image::ACTIVE + from as usize / 8;
    let rest = u8::at(image, place) >> (from % 8);
    rest == 0 && zeros_between(image, place + 1, Image::HISTORY)
}

fn states_zero(image: &[u8], from: u8) -> bool
    ensures { result ≡ every (λ s. not (rules.is_active image.now s) && eqb (rules.recorded image.now s) 0) (range from most_states) }
{
    inactive(image, from) && zeros_between(image, Image::HISTORY + from as usize, Image::VARIABLES)
}

fn variables_zero(image: &[u8], from: u8) -> bool
    ensures { result ≡ every (λ v. eqb (field 4 image.now (74 + 4 * v)) 0) (range from most_variables) }
{
    zeros_between(
        image,
        Image::VARIABLES + Image::VALUE * (from as usize),
        Image::SIZE,
    )
}

// For every chart with that header.
pub fn is_zero(image: &[u8], h: Header) -> bool
    ensures { (c : Chart) → h ≡ header_of c → result ≡ rules.rest_zero image.now c }
{
    states_zero(image, h.states) && variables_zero(image, h.variables)
}
