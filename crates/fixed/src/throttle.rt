// Alpha: how strongly a curvature below zero lowers a weight, by depth.
ghost use Rattle.std.specs.Prelude.{◌≡◌};
ghost use Rattle.fixed.specs.Rules.{alpha_of};
ghost use Rattle.fixed.specs.Unsigned.{fine_alpha_of};

use crate::FixedPoint;
use crate::unsigned::SCALE;

// Alpha as a whole number, 0 to 3.
#[tactic(auto, unfolding(crate::specs::Rules::alpha_of))]
pub fn alpha(depth: u64) -> u32
    ensures { result ≡ alpha_of depth }
{
    if depth < FixedPoint::RAMP_START {
        0
    } else if depth >= FixedPoint::RAMP_END {
        FixedPoint::ALPHA_MAX
    } else {
        let range = FixedPoint::RAMP_END - FixedPoint::RAMP_START;
        (FixedPoint::ALPHA_MAX as u64 * (depth - FixedPoint::RAMP_START) / range) as u32
    }
}

// Alpha in 65,536ths, 0 to 196,608.
#[tactic(auto, using(crate::specs::Weights::alpha_most), unfolding(crate::specs::Unsigned::fine_alpha_of))]
pub fn fine_alpha(depth: u64) -> u32
    ensures { result ≡ fine_alpha_of depth }
{
    SCALE * alpha(depth)
}
