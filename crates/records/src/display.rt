// Faults as they are printed.
ghost use Rattle.records.specs.Faults.{layer_word, refusal_text, told};
ghost use Rattle.std.specs.Prelude.{Some};

use crate::fault::{Fault, Layer, Refusal};
use std::error::Error;
use std::fmt;

impl fmt::Display for Layer {
    ghost output = { λ l. Some (layer_word l) };

    fn fmt<W: fmt::Write>(&self, f: &mut fmt::Formatter<W>) -> fmt::Result {
        match self {
            Layer::Line => write!(f, "line"),
            Layer::Table => write!(f, "table"),
            Layer::Station => write!(f, "station"),
        }
    }
}

// As `refused=1 layer=line place=0`.
impl fmt::Display for Fault {
    ghost output = { λ x. Some (refusal_text (told x)) };

    #[tactic(auto, using(crate::proofs::Numbers::written_is))]
    fn fmt<W: fmt::Write>(&self, f: &mut fmt::Formatter<W>) -> fmt::Result {
        let Refusal {
            number,
            layer,
            place,
        } = self.refusal();
        write!(f, "refused={number} layer={layer} place={place}")
    }
}

impl Error for Fault {}
