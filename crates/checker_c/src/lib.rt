// The checker for a host in C.
#![tactic(auto)]

ghost use Rattle.std.specs.Prelude.{◌≡◌};
ghost use Rattle.rules.specs.Accept as rules;

// The lowest number that applies.
#[unsafe(no_mangle)]
pub extern "C" fn afraulenc_check(chart: &[u8]) -> u8
    ensures { result ≡ rules.chart_refusal chart.now }
{
    checker::refusal(chart)
}
