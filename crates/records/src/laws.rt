// Laws of records, each held by the contract of a function.
ghost use Rattle.records.specs.Written.{WrittenByRule};

// A number is written by the rule of its last digit.
#[tactic(auto, using(crate::proofs::Numbers::written_by_rule))]
pub fn written_by_rule()
    ensures { WrittenByRule }
{}
