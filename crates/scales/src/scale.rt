// A scale says what an effort is.
ghost use Rattle.std.specs.Prelude.{◌≡◌};
ghost use Rattle.scales.specs.Measures.{Laws, Measure};

// Its value is an effort; its ghost member is what the four questions answer.
pub trait Scale: Copy {
    ghost measure: { Measure Self };

    // The effort of nothing.
    fn nothing() -> Self
        ensures { result ≡ measure.nothing };

    // The effort of a cost.
    fn of_cost(cost: u32) -> Self
        ensures { result ≡ measure.of_cost cost };

    // This effort and then the other one.
    fn join(self, other: Self) -> Self
        ensures { result ≡ measure.joined self other };

    // Whether this effort is at most the other one. It is no `PartialOrd`: there, efforts that are each at most the other are `==`.
    fn at_most(self, other: Self) -> bool
        ensures { result ≡ measure.at_most self other };

    ghost keeps: { Laws measure };
}
