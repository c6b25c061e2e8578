// Shares in ten-thousandths, and the interval of each.
ghost use Rattle.std.specs.Prelude.{◌≡◌, ◌≤◌, ◌<◌, ◌^◌};
ghost use Rattle.diva_rate.specs.Shares.{high_below, high_of, is_high, low_of, nearest, rate};

/// All of them, in ten-thousandths.
const WHOLE: u32 = 10_000;

/// How many of some faults there are, with their share and its interval, in ten-thousandths.
#[derive(Clone, Copy, Debug, PartialEq, Eq)]
pub struct Share {
    /// How many they are.
    pub count: u32,
    /// Their share, rounded to the nearest, a half up.
    pub share: u64,
    /// The lower bound of the Wilson score interval of the share at 95 %, rounded down.
    pub low: u32,
    /// The upper bound, rounded up: at most 10,000.
    pub high: u32,
}

/// So many of some faults.
pub(crate) fn share_of(count: u32, faults: u32) -> Share
    requires some { 0 < faults }
    requires most { count ≤ faults }
    ensures { result ≡ rate count faults }
{
    Share {
        count,
        share: nearest(count, faults),
        low: low(count, faults),
        high: high(count, faults),
    }
}

/// The share in ten-thousandths, rounded to the nearest, a half up.
fn nearest(count: u32, faults: u32) -> u64
    requires { 0 < faults }
    ensures { result ≡ nearest count faults }
{
    (20_000 * u64::from(count) + u64::from(faults)) / (2 * u64::from(faults))
}

/// The lower bound of the interval, rounded down.
fn low(count: u32, faults: u32) -> u32
    requires { count ≤ faults }
    ensures { result ≡ low_of count faults }
{
    WHOLE - high(faults - count, faults)
}

/// The upper bound, rounded up: at most 10,000.
fn high(count: u32, faults: u32) -> u32
    requires { count ≤ faults }
    ensures bound { result ≡ high_of count faults }
    ensures most { result ≤ 10000 }
{
    high_below(WHOLE, count, faults)
}

/// The least number of ten-thousandths below `most` that is not below the upper bound, `most` if none is.
#[tactic(auto, unfolding(crate::specs::Shares::high_below))]
fn high_below(most: u32, count: u32, faults: u32) -> u32
    requires { most ≤ 10000 }
    ensures bound { result ≡ high_below most count faults }
    ensures within { result ≤ most }
{
    for share in 0..most {
        if is_high(count, faults, share) {
            return share;
        }
    }
    most
}

/// Whether so many ten-thousandths are more than the share, and not below the upper bound of its interval.
#[tactic(auto, using(crate::proofs::Bounding::product_small, crate::proofs::Bounding::square_small, crate::proofs::Bounding::spread_small))]
fn is_high(count: u32, faults: u32, share: u32) -> bool
    requires { share ≤ 10000 }
    ensures { result ≡ is_high count faults share }
{
    let (reached, due) = (
        u64::from(faults) * u64::from(share),
        10_000 * u64::from(count),
    );
    if reached <= due {
        return false;
    }
    let above = u128::from(reached - due);
    2401 * u128::from(reached) * u128::from(WHOLE - share) <= 625 * (above * above)
}
