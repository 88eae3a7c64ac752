// What is handed on only when a step goes well.
ghost use Rattle.std.specs.Prelude.{◌≡◌, ◌++◌, ◌*◌, ◌≤◌, length, drop};
ghost use Rattle.rules.specs.Doing.{item_size};
ghost use Rattle.rules.specs.Calls.{item_bytes};

use fields::Field;
use rules::items::Item;

// The items at the start of a trace; its bytes past them stay.
pub fn hand_on(trace: &mut [u8], items: &[u32])
    requires { item_size * length items.now ≤ length trace.old }
    ensures { trace.new ≡ item_bytes items.now ++ drop (item_size * length items.now) trace.old }
{
    for (i, item) in items.iter().enumerate() {
        item.put(trace, Item::SIZE * i);
    }
}
