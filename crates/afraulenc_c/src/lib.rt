// The calls for a host in C, as include/afraulenc.h declares them: each is the library's, and a slice is a pointer and, behind it,
// how many bytes it has.
#![tactic(auto)]

ghost use Rattle.std.specs.Prelude.{◌≡◌, []};
ghost use Rattle.rules.specs.Calls as rules;

// One step of a lift. The answer is refusal + 256 x items + 131,072 x units.
#[unsafe(no_mangle)]
pub extern "C" fn step(
    chart: &[u8],
    board: &mut [u8],
    trace: &mut [u8],
    lift: u32,
    event: u32,
    allowance: u32,
) -> u64
    ensures { record { answer = result; board = board.new; trace = trace.new } ≡ rules.observed (rules.step_call chart.now board.old trace.old lift event allowance) }
{
    afraulenc::step(chart, board, trace, lift, event, allowance)
}

// A lift is made fresh for a chart. The answer is the refusal.
#[unsafe(no_mangle)]
pub extern "C" fn fresh(chart: &[u8], board: &mut [u8], lift: u32) -> u64
    ensures { record { answer = result; board = board.new; trace = [] } ≡ rules.observed (rules.fresh_call chart.now board.old lift) }
{
    afraulenc::fresh(chart, board, lift)
}

// The bound of a chart. The answer is refusal + 256 x bound.
#[unsafe(no_mangle)]
pub extern "C" fn bound(chart: &[u8]) -> u64
    ensures { record { answer = result; board = []; trace = [] } ≡ rules.observed (rules.bound_call chart.now) }
{
    afraulenc::bound(chart)
}
