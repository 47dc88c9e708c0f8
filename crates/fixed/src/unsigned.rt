// The same figures without signs, for crates that keep curvatures in a table and multiply weights along a walk.
// A raised curvature is a curvature with 65,536 added, from 0 to 131,072. Programs and hosts call FixedPoint's functions,
// which refuse what is out of range; a crate that calls these has proved that it is not.
ghost use Rattle.std.specs.Prelude.{◌≡◌, true, ◌-◌, ◌*◌, ◌≤◌, max};
ghost use Rattle.fixed.specs.Rules.{scale, floor, in_range};
ghost use Rattle.fixed.specs.Unsigned.{raised as raised_of, lowered as lowered_of, raised_curvature, edge_weight, cut};

use crate::FixedPoint;

// FixedPoint's numbers, without signs.
pub const SCALE: u32 = FixedPoint::SCALE as u32;

const FLOOR: u32 = FixedPoint::FLOOR as u32;

// The curvature with 65,536 added.
#[tactic(auto, unfolding(crate::specs::Unsigned::raised, crate::specs::Rules::in_range))]
pub fn raised(curvature: FixedPoint) -> u32
    requires { in_range curvature.0 ≡ true }
    ensures { result ≡ raised_of curvature.0 }
{
    (curvature.0 + FixedPoint::SCALE) as u32
}

// The curvature that a raised one stands for.
#[tactic(auto, unfolding(crate::specs::Unsigned::lowered))]
pub fn lowered(curvature: u32) -> FixedPoint
    requires { curvature ≤ 2 * scale }
    ensures { result.0 ≡ lowered_of curvature }
{
    FixedPoint(curvature as i32 - FixedPoint::SCALE)
}

// The raised curvature of two sets, by how many members they share and how many they have together.
#[tactic(auto, using(crate::specs::Curvatures::ratio_most), unfolding(crate::specs::Unsigned::raised_curvature))]
pub fn curvature(shared: u32, joined: u32) -> u32
    requires { shared ≤ joined }
    ensures { result ≡ raised_curvature shared joined }
{
    if joined == 0 {
        SCALE
    } else {
        let ratio = shared as u64 * SCALE as u64 / joined as u64;
        2 * ratio as u32
    }
}

// The weight of an edge of this raised curvature, at an alpha in 65,536ths.
#[tactic(auto, using(crate::proofs::Fits::times_fits), unfolding(crate::specs::Unsigned::edge_weight))]
pub fn weight(curvature: u32, alpha: u32) -> u32
    ensures { result ≡ edge_weight alpha curvature }
{
    less(alpha as u64 * below_zero(curvature) / SCALE as u64)
}

// p x w / 65,536 cut, where w is a weight.
#[tactic(auto, using(crate::proofs::Fits::times_fits, crate::specs::Weights::cut_most), unfolding(crate::specs::Unsigned::cut))]
pub fn product(p: u32, w: u32) -> u32
    requires { w ≤ scale }
    ensures { result ≡ cut p w }
{
    (p as u64 * w as u64 / SCALE as u64) as u32
}

// How far a raised curvature lies below zero; 0 where it does not.
pub(crate) fn below_zero(curvature: u32) -> u64
    ensures { result ≡ scale - curvature }
{
    SCALE.saturating_sub(curvature) as u64
}

// The full weight less a loss, not under the floor.
pub(crate) fn less(loss: u64) -> u32
    ensures { result ≡ max floor (scale - loss) }
{
    (SCALE as u64).saturating_sub(loss).max(FLOOR as u64) as u32
}
