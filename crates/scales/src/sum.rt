// Sum: costs are added, and the sum stops at the largest number of 32 bits.
ghost use Rattle.scales.specs.Scales.{sum};
ghost use Rattle.scales.specs.Costs.{sum_laws};

use crate::efforts::Sum;
use crate::scale::Scale;

#[tactic(auto, using(crate::specs::Costs::same_cost))]
impl Scale for Sum {
    ghost measure = { sum };

    ghost keeps = { sum_laws };

    fn nothing() -> Sum {
        Sum { cost: 0 }
    }

    fn of_cost(cost: u32) -> Sum {
        Sum { cost }
    }

    fn join(self, other: Sum) -> Sum {
        Sum {
            cost: self.cost.saturating_add(other.cost),
        }
    }

    fn at_most(self, other: Sum) -> bool {
        self <= other
    }
}
