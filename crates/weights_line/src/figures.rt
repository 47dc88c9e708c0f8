// The figures of a line's counts.
ghost use Rattle.std.specs.Prelude.{◌≡◌};
ghost use Rattle.std.specs.Result.{result_ok};
ghost use Rattle.weights_line.specs.Rules.{answer_of, figures_of};

use crate::Counts;
use fixed::{FixedPoint, OutOfRange};

// A curvature and a weight in 65,536ths, and the alpha between them.
#[derive(Clone, Copy, Debug, PartialEq, Eq)]
pub struct Figures {
    pub curvature: i32,
    pub alpha: u32,
    pub weight: i32,
}

// The figures of a line that was taken.
#[tactic(auto, unfolding(crate::specs::Rules::answer_of))]
pub fn answer_to(line: Option<Counts>) -> Option<Figures>
    ensures { result ≡ answer_of line }
{
    line?.figures().ok()
}

impl Counts {
    #[tactic(auto, using(crate::specs::FigureLaws::bad_counts, crate::specs::FigureLaws::no_bad_weight))]
    fn figures(self) -> Result<Figures, OutOfRange>
        ensures { result_ok result ≡ figures_of self.shared self.joined self.depth }
    {
        let curvature = FixedPoint::curvature(self.shared, self.joined)?;
        let weight = curvature.weight_at(self.depth)?;
        Ok(Figures {
            curvature: curvature.0,
            alpha: fixed::alpha(self.depth),
            weight: weight.0,
        })
    }
}
