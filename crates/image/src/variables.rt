// The variables' values.
ghost use Rattle.std.specs.Prelude.{◌≡◌, ◌+◌, ◌*◌};
ghost use Rattle.rules.specs.Bytes.{field, put};
ghost use Rattle.rules.specs.Image as rules;

use fields::Field;
use rules::images::Image;

fn place(v: u8) -> usize
    ensures { result ≡ 74 + 4 * v }
{
    Image::VARIABLES + Image::VALUE * (v as usize)
}

pub fn value(image: &[u8], v: u8) -> i32
    ensures { result ≡ rules.variable image.now v }
{
    i32::at(image, place(v))
}

#[tactic(auto, unfolding(rules::specs::Image::set_variable))]
pub fn set(image: &mut [u8], v: u8, z: i32)
    ensures { image.new ≡ rules.set_variable image.old v z }
{
    z.put(image, place(v));
}

// The same as numbers, whatever their sign.
pub fn number(image: &[u8], v: u8) -> u32
    ensures { result ≡ field 4 image.now (74 + 4 * v) }
{
    u32::at(image, place(v))
}

pub fn set_number(image: &mut [u8], v: u8, n: u32)
    ensures { image.new ≡ put 4 image.old (74 + 4 * v) n }
{
    n.put(image, place(v));
}
