// Amounts that are scaled by a certificate's denominator. Only multiplication by the denominator and the claim test lead from plain amounts
// to these.
ghost use Rattle.std.specs.Prelude.{◌≡◌, ◌+◌, ◌-◌, ◌*◌, ◌^◌, ◌<◌, ◌≤◌, ◌⊎◌, pos, ◌+ℤ◌, ◌-ℤ◌, ◌*ℤ◌, neg_ℤ, FitsSigned, int_le, IfSome, IfNone};
ghost use Rattle.std.specs.Int.{w64};
ghost use Rattle.claim.specs.declared.scaled.TheConstants.{MOST_DENOMINATOR};

use crate::amount::Cycles;
use std::ops::{Add, Mul, Neg, Sub};

const MOST_DENOMINATOR: u32 = 1_048_575;

// What a certificate's amounts are scaled by.
#[derive(Clone, Copy, PartialEq, Eq, PartialOrd, Ord, Debug)]
pub struct Denominator {
    value: u32,
    ghost positive: { 1 ≤ value },
    ghost small: { value ≤ MOST_DENOMINATOR },
}

impl Denominator {
    // The denominator of this value, if it is within the limits.
    pub(crate) fn new(value: u32) -> Option<Denominator>
        ensures some { IfSome result (λ d. d.value ≡ value) }
        ensures none { IfNone result ((value < 1) ⊎ (MOST_DENOMINATOR < value)) }
    {
        if (1..=MOST_DENOMINATOR).contains(&value) {
            Some(Denominator { value })
        } else {
            None
        }
    }
}

// Cycles times the denominator.
#[derive(Clone, Copy, PartialEq, Eq, PartialOrd, Ord, Debug)]
pub struct Scaled(pub i64);

impl Add<Cycles> for Cycles {
    type Output = Cycles;

    ghost can_add = { λ a b. a.0 + b.0 < 2 ^ 64 };

    ghost add_gives = { λ a b r. r.0 ≡ a.0 + b.0 };

    fn add(self, rhs: Cycles) -> Cycles {
        Cycles(self.0 + rhs.0)
    }
}

impl Mul<Denominator> for Cycles {
    type Output = Scaled;

    ghost can_mul = { λ a d. a.0 * d.value < 2 ^ 63 };

    ghost mul_gives = { λ a d r. r.0 ≡ pos (a.0 * d.value) };

    fn mul(self, rhs: Denominator) -> Scaled {
        Scaled((self.0 * u64::from(rhs.value)) as i64)
    }
}

impl Add<Scaled> for Scaled {
    type Output = Scaled;

    ghost can_add = { λ a b. FitsSigned w64 (a.0 +ℤ b.0) };

    ghost add_gives = { λ a b r. r.0 ≡ a.0 +ℤ b.0 };

    fn add(self, rhs: Scaled) -> Scaled {
        Scaled(self.0 + rhs.0)
    }
}

impl Sub<Scaled> for Scaled {
    type Output = Scaled;

    ghost can_sub = { λ a b. FitsSigned w64 (a.0 -ℤ b.0) };

    ghost sub_gives = { λ a b r. r.0 ≡ a.0 -ℤ b.0 };

    fn sub(self, rhs: Scaled) -> Scaled {
        Scaled(self.0 - rhs.0)
    }
}

impl Neg for Scaled {
    type Output = Scaled;

    ghost can_neg = { λ a. FitsSigned w64 (neg_ℤ a.0) };

    ghost neg_gives = { λ a r. r.0 ≡ neg_ℤ a.0 };

    fn neg(self) -> Scaled {
        Scaled(-self.0)
    }
}

// A coefficient times a multiplier.
impl Mul<u32> for Scaled {
    type Output = Scaled;

    ghost can_mul = { λ a k. FitsSigned w64 (a.0 *ℤ pos k) };

    ghost mul_gives = { λ a k r. r.0 ≡ a.0 *ℤ pos k };

    fn mul(self, rhs: u32) -> Scaled {
        Scaled(self.0 * i64::from(rhs))
    }
}

impl Scaled {
    // Nothing, on either scale.
    pub(crate) const ZERO: Scaled = Scaled(0);

    // The column test: whether this is at least the cost, scaled. Nothing is divided.
    pub(crate) fn reaches(self, cost: Cycles, scale: Denominator) -> bool
        requires { cost.0 * scale.value < 2 ^ 63 }
        ensures { result ≡ int_le (pos (cost.0 * scale.value)) self.0 }
    {
        cost * scale <= self
    }

    // The claim test: whether this, divided by the denominator and cut, is at most the claim. Nothing is divided.
    pub(crate) fn within(self, claim: Cycles, scale: Denominator) -> bool
        requires { claim.0 * scale.value < 2 ^ 60 }
        ensures { result ≡ int_le self.0 (pos (claim.0 * scale.value + scale.value - 1)) }
    {
        let d = u64::from(scale.value);
        self.0 <= (claim.0 * d + d - 1) as i64
    }
}
