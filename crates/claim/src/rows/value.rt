// The multiplier of a row.
ghost use Rattle.std.specs.Prelude.{◌≡◌, ◌^◌, ◌<◌, ◌≤◌, length, pos, slice_index_or};
ghost use Rattle.sheet.specs.declared.limits.TheConstants.{MOST_LBLOCKS};
ghost use Rattle.claim.specs.Parts.{multiplier as multiplier_of, multipliers};
ghost use Rattle.claim.specs.Shares.{total, Near};

use crate::certificate::read::magnitude;
use crate::scaled::Scaled;
use words::word::Payload;

// The multiplier that a pair of words gives.
// Kept: `near` bounds what is answered; a type of near amounts would need sums and differences of its own.
pub(crate) fn multiplier(pair: &[u32; 2]) -> Scaled
    ensures value { result.0 ≡ multiplier_of pair.now }
    ensures near { Near (2 ^ 40) result.0 }
{
    let [first, second] = *pair;
    let high = Payload::from(first);
    let magnitude = magnitude(high, Payload::from(second)) as i64;
    if high.minus() {
        Scaled(-magnitude)
    } else {
        Scaled(magnitude)
    }
}

// The multiplier of the row with this number in its family.
pub(crate) fn at(pairs: &[[u32; 2]], row: usize) -> Scaled
    requires { row < length pairs.now }
    ensures value { result.0 ≡ slice_index_or (multipliers pairs.now) row (pos 0) }
    ensures near { Near (2 ^ 40) result.0 }
{
    multiplier(&pairs[row])
}

// The multipliers of rows added up.
pub(crate) fn sum(pairs: &[[u32; 2]]) -> Scaled
    requires { length pairs.now ≤ MOST_LBLOCKS }
    ensures sum { result.0 ≡ total (multipliers pairs.now) }
    ensures near { Near (2 ^ 49) result.0 }
{
    Scaled(pairs.iter().map(|pair| multiplier(pair).0).sum())
}
