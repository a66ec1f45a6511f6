// The effort of a history.
ghost use Rattle.std.specs.Prelude.{◌≡◌};
ghost use Rattle.scales.specs.Efforts.{effort};

use crate::scale::Scale;

// Joins the costs of the history's events in turn; openings and closings cost nothing. Symbols are numbers, as a history buffer holds them.
// It is a `for`, since a fold over what `get` answers is no plainer.
pub fn effort_of<S: Scale>(history: &[u16], costs: &[u32; 256]) -> S
    ensures { result ≡ effort S.Scale.measure costs.now history.now }
{
    let mut total = S::nothing();
    for symbol in history {
        if let Some(cost) = costs.get(usize::from(*symbol)) {
            total = total.join(S::of_cost(*cost));
        }
    }
    total
}
