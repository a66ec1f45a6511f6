// Laws of texts, each held by the contract of a function.
ghost use Rattle.texts.specs.Whole.{ReadAsWritten};

// A text is read whole exactly when it is the lines of its records, and they keep the rules.
#[tactic(auto, using(crate::proofs::Whole::read_as_written))]
pub fn read_as_written()
    ensures { ReadAsWritten }
{}
