// The table of played cases, held by the contract of a function.
ghost use Rattle.cases.specs.Played.{Played};

// Each case of the table holds.
#[tactic(auto, using(crate::proofs::Rows::played))]
pub fn played_cases_hold()
    ensures { Played }
{}
