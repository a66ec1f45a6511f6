// The efforts of the two scales.
ghost use Rattle.std.specs.Prelude.{◌≤◌};

// Costs added up.
#[derive(Clone, Copy, Debug, PartialEq, Eq, PartialOrd, Ord)]
pub struct Sum {
    pub cost: u32,
    ghost fits: { cost ≤ 4294967295 },
}

// The largest cost.
#[derive(Clone, Copy, Debug, PartialEq, Eq, PartialOrd, Ord)]
pub struct Peak {
    pub cost: u32,
}
