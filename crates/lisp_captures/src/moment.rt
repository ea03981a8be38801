//! When a packet was captured.

ghost use Rattle.std.specs.Prelude.{◌≡◌, ◌*◌, ◌/◌, ◌%◌, ◌^◌, ◌<◌, IfSome};
ghost use Rattle.lisp_captures.specs.Moment.{base_of, fitted, moment_of};

// From here on a resolution counts bits, and below it digits.
const BINARY: u8 = 128;

/// Microseconds since 1970, of ticks that a resolution counts: 10^-n seconds, or 2^-n with the highest bit set (option
/// if_tsresol of pcapng). `None` where 64 bits don't hold the ticks of a second, or the microseconds.
#[tactic(auto, unfolding(crate::specs::Moment::moment_of))]
pub(crate) fn moment(resolution: u8, ticks: u64) -> Option<u64>
    ensures { result ≡ moment_of resolution ticks }
{
    match ticks_per_second(resolution) {
        Some(per_second) => microseconds(ticks, per_second),
        None => None,
    }
}

// The microseconds of ticks.
fn microseconds(ticks: u64, per_second: u64) -> Option<u64>
    requires { 0 < per_second }
    ensures { result ≡ fitted (ticks * 1000000 / per_second) }
{
    let whole = u128::from(ticks) * 1_000_000 / u128::from(per_second);
    u64::try_from(whole).ok()
}

// How many ticks of a resolution are a second.
#[tactic(auto, using(crate::proofs::Powers::base_power_positive))]
fn ticks_per_second(resolution: u8) -> Option<u64>
    ensures fitted { result ≡ fitted (base_of resolution ^ (resolution % 128)) }
    ensures positive { IfSome result (λ n. 0 < n) }
{
    base(resolution).checked_pow(u32::from(resolution % BINARY))
}

fn base(resolution: u8) -> u64
    ensures { result ≡ base_of resolution }
{
    if resolution < BINARY { 10 } else { 2 }
}
