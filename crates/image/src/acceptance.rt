// Whether an image is accepted for a chart.
ghost use Rattle.std.specs.Prelude.{◌≡◌, ◌&&◌, ◌||◌, eqb, length};
ghost use Rattle.rules.specs.Accept.{marked};
ghost use Rattle.rules.specs.Image as rules;

use crate::{active, history, rest, shape};
use chart::Chart;
use rules::images::Image;

// Whether there are as many bytes as an image has, with its mark.
#[tactic(auto, unfolding(rules::specs::Accept::marked, rules::specs::Bytes::ascii))]
fn is_image(image: &[u8]) -> bool
    ensures { result ≡ (eqb (length image.now) rules.image_size && marked image.now "IM" 0) }
{
    image.len() == Image::SIZE && image.starts_with(b"IM")
}

// Whether it is of a lift that has not started, or has the shape of one that has.
fn is_shaped(image: &[u8], chart: &Chart) -> bool
    ensures { result ≡ (rules.not_started image.now || rules.shape image.now chart.now) }
{
    active::not_started(image) || shape::is_right(image, chart)
}

#[tactic(auto, unfolding(rules::specs::Image::accepted, rules::specs::Lists::all, rules::specs::Lists::every))]
pub fn accepted(image: &[u8], chart: &Chart) -> bool
    ensures { result ≡ rules.accepted image.now chart.now }
{
    is_image(image)
        && rest::is_zero(image, chart.header())
        && history::every_sound(image, chart)
        && is_shaped(image, chart)
}
