// The lines of a text in turn.
ghost use Rattle.std.specs.Prelude.{◌≤◌, length};

use crate::line::line_at;
use records::record::Line;

// The lines of a text from `at` on.
#[derive(Drop)]
pub(crate) struct Lines<'a> {
    text: &'a [u8],
    at: usize,
    ghost within: { at ≤ length text.now },
}

impl<'a> Lines<'a> {
    ghost use Rattle.std.specs.Prelude.{◌≡◌};

    pub(crate) fn of(text: &'a [u8]) -> Self
        ensures text { result.text.now ≡ text.now }
        ensures at { result.at ≡ 0 }
    {
        Lines { text, at: 0 }
    }
}

// Gives each line with its place. Where no line stands it gives the place alone, and ends: the place is told either way, so it is no
// `Result`.
impl Iterator for Lines<'_> {
    ghost use Rattle.std.specs.Prelude.{◌-◌, length};
    ghost use Rattle.std.specs.Iterator.{at_most};
    ghost use Rattle.texts.specs.Walks.{GivesLine};

    type Item = (usize, Option<Line>);

    ghost next_gives = { GivesLine };

    ghost remaining = { λ s. at_most (length s.text.now - s.at) };

    #[tactic(auto, using(crate::proofs::Lines::line_advances))]
    fn next(&mut self) -> Option<(usize, Option<Line>)> {
        let at = self.at;
        if at == self.text.len() {
            return None;
        }
        match line_at(self.text, at) {
            Some((line, end)) => {
                self.at = end;
                Some((at, Some(line)))
            }
            None => {
                self.at = self.text.len();
                Some((at, None))
            }
        }
    }
}
