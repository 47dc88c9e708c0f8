// The fixed-point rules: ratio and product, curvature from two counts, and the weight of an edge.
#![tactic(auto)]

mod throttle;
pub mod unsigned;

ghost use Rattle.std.specs.Prelude.{◌≡◌, false, ◌*ℤ◌, Some, codes};
ghost use Rattle.std.specs.Int.Signed.{quot_z};
ghost use Rattle.fixed.specs.Answers.{answer};
ghost use Rattle.fixed.specs.Rules.{is_zero, kept, ratio_of, product_of, alpha_max, alpha_of, curvature_of, in_range, weight_of};

use std::error::Error;
use std::fmt;
pub use throttle::{alpha, fine_alpha};

// A number in 65,536ths.
#[derive(Clone, Copy, Debug, PartialEq, Eq, PartialOrd, Ord)]
pub struct FixedPoint(pub i32);

// The refusal of a curvature, or of counts, out of range.
#[derive(Clone, Copy, Debug, PartialEq, Eq)]
pub struct OutOfRange;

impl fmt::Display for OutOfRange {
    ghost output = { λ _. Some (codes "out of range") };

    fn fmt<W: fmt::Write>(&self, f: &mut fmt::Formatter<W>) -> fmt::Result {
        f.write_str("out of range")
    }
}

impl Error for OutOfRange {}

impl FixedPoint {
    // This many 65,536ths are 1, which is also the full weight.
    pub const SCALE: i32 = 65_536;
    // Alpha at full strength.
    pub const ALPHA_MAX: u32 = 3;
    // The least weight.
    pub const FLOOR: i32 = 655;
    // The depth from which alpha rises.
    pub const RAMP_START: u64 = 1_000;
    // The depth from which alpha is at full strength.
    pub const RAMP_END: u64 = 6_000;

    // n / d, and 0 where d is 0.
    #[tactic(auto, unfolding(crate::specs::Rules::ratio_of))]
    pub fn ratio(n: i32, d: i32) -> FixedPoint
        ensures { result.0 ≡ ratio_of n d }
    {
        if d == 0 {
            FixedPoint(0)
        } else {
            FixedPoint(quotient(n, FixedPoint::SCALE, d))
        }
    }

    // The product, cut toward zero.
    #[tactic(auto, unfolding(crate::specs::Rules::product_of))]
    pub fn product(self, other: FixedPoint) -> FixedPoint
        ensures { result.0 ≡ product_of self.0 other.0 }
    {
        FixedPoint(quotient(self.0, other.0, FixedPoint::SCALE))
    }

    // The curvature of two sets, by how many members they share and how many they have together.
    #[tactic(auto, using(crate::specs::Curvatures::curvature_refused, crate::specs::Curvatures::raised_curvature_most, crate::proofs::Curvatures::curvature_served))]
    pub fn curvature(shared: u32, joined: u32) -> Result<FixedPoint, OutOfRange>
        ensures { answer result ≡ curvature_of shared joined }
    {
        if joined < shared {
            return Err(OutOfRange);
        }
        Ok(unsigned::lowered(unsigned::curvature(shared, joined)))
    }

    // Whether this is a curvature: a number from -65,536 to 65,536.
    #[tactic(auto, unfolding(crate::specs::Rules::in_range))]
    pub fn in_range(self) -> bool
        ensures { result ≡ in_range self.0 }
    {
        self.0.unsigned_abs() <= unsigned::SCALE
    }

    // The weight of an edge of this curvature, at a given alpha.
    #[tactic(auto, using(crate::proofs::Fits::times_fits, crate::specs::Weights::weight_refused, crate::specs::Weights::weight_served, crate::specs::Weights::edge_whole))]
    pub fn weight_with(self, alpha: u32) -> Result<FixedPoint, OutOfRange>
        ensures { answer result ≡ weight_of alpha self.0 }
    {
        if !self.in_range() {
            return Err(OutOfRange);
        }
        let loss = alpha as u64 * unsigned::below_zero(unsigned::raised(self));
        let weight = unsigned::less(loss) as i32;
        Ok(FixedPoint(weight))
    }

    // The weight at the alpha of a depth.
    pub fn weight_at(self, depth: u64) -> Result<FixedPoint, OutOfRange>
        ensures { answer result ≡ weight_of (alpha_of depth) self.0 }
    {
        self.weight_with(alpha(depth))
    }

    // The weight at full strength.
    pub fn weight(self) -> Result<FixedPoint, OutOfRange>
        ensures { answer result ≡ weight_of alpha_max self.0 }
    {
        self.weight_with(FixedPoint::ALPHA_MAX)
    }
}

// a x b / d cut toward zero, of which the low 32 bits are kept as two's complement.
fn quotient(a: i32, b: i32, d: i32) -> i32
    requires { is_zero d ≡ false }
    ensures { result ≡ kept (quot_z (a *ℤ b) d) }
{
    low_bits(a as i64 * b as i64 / d as i64)
}

// The low 32 bits of z as two's complement. `as` must lose nothing, so the bits above them are cut off first.
#[tactic(auto, unfolding(crate::specs::Rules::kept, crate::specs::Rules::low_bits))]
fn low_bits(z: i64) -> i32
    ensures { result ≡ kept z }
{
    let low = (z.cast_unsigned() % (1 << 32)) as u32;
    low.cast_signed()
}
