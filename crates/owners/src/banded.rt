// The largest cost, compared in bands of a thousand.
ghost use Rattle.owners.specs.Bands.{banded};
ghost use Rattle.std.proofs.Common.{rules};

use scales::scale::Scale;

#[derive(Clone, Copy, Debug, Default, PartialEq, Eq)]
pub struct Banded {
    pub cost: u32,
}

impl Scale for Banded {
    ghost measure = { banded };

    ghost keeps = { Prim.search rules };

    fn nothing() -> Banded {
        Banded { cost: 0 }
    }

    fn of_cost(cost: u32) -> Banded {
        Banded { cost }
    }

    fn join(self, other: Banded) -> Banded {
        Banded {
            cost: self.cost.max(other.cost),
        }
    }

    fn at_most(self, other: Banded) -> bool {
        self.cost / 1000 <= other.cost / 1000
    }
}
