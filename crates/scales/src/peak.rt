// Peak: the largest cost.
ghost use Rattle.scales.specs.Scales.{peak};
ghost use Rattle.std.proofs.Common.{rules};

use crate::efforts::Peak;
use crate::scale::Scale;

impl Scale for Peak {
    ghost measure = { peak };

    ghost keeps = { Prim.search rules };

    fn nothing() -> Peak {
        Peak { cost: 0 }
    }

    fn of_cost(cost: u32) -> Peak {
        Peak { cost }
    }

    fn join(self, other: Peak) -> Peak {
        self.max(other)
    }

    fn at_most(self, other: Peak) -> bool {
        self <= other
    }
}
