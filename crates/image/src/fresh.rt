// The fresh image: zero bits and history, and the initial variables.
ghost use Rattle.std.specs.Prelude.{◌≡◌, ◌≤◌, length};
ghost use Rattle.rules.specs.Bytes.{put};
ghost use Rattle.rules.specs.Chart.{most_variables, variables};
ghost use Rattle.rules.specs.Image as rules;

use crate::variables;
use chart::Chart;
use fields::Field;

fn mark(image: &mut [u8])
    ensures { image.new ≡ put 1 (put 1 image.old 0 73) 1 77 }
{
    b'I'.put(image, 0);
    b'M'.put(image, 1);
}

// Made over whatever an image of 202 bytes had, for a chart with 32 variables at most.
pub fn make(image: &mut [u8], chart: &Chart)
    requires { (length image.old ≡ rules.image_size) × (variables chart.now ≤ most_variables) }
    ensures { image.new ≡ rules.fresh_image chart.now }
{
    image.fill(0);
    mark(image);
    for v in 0..chart.header().variables {
        variables::set_number(image, v, chart.initial_value(v));
    }
}
