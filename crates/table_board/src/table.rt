// The table board: its policies are given by records, edge by edge.
ghost use Rattle.std.specs.Prelude.{◌≡◌, ◌≤◌, length, option_copied, option_and_then, slice_get};
ghost use Rattle.table_board.specs.Policies.{laid_out, sound};

use crate::rows::{Policy, Row};
use boards::board::Board;

// A policy for each policy record: at most eight.
#[derive(Drop, Debug, PartialEq, Eq)]
pub struct TableBoard {
    pub(crate) policies: Vec<Policy>,
    ghost few: { length policies.items ≤ 8 },
}

impl TableBoard {
    // The row of a policy's state.
    fn row(&self, p: u8, q: u8) -> Option<&Row>
        ensures { option_copied result ≡ option_and_then (λ policy. slice_get policy.rows.items q) (slice_get self.now.policies.items p) }
    {
        self.policies.get(usize::from(p))?.rows.get(usize::from(q))
    }
}

impl Board for TableBoard {
    ghost meaning = { λ b. laid_out b.policies.items };

    ghost sound = { λ b. sound b.policies.items b.few };

    fn count(&self) -> u8 {
        self.policies.len() as u8
    }

    fn states(&self, p: u8) -> Option<u8> {
        self.policies
            .get(usize::from(p))
            .map(|policy| policy.rows.len() as u8)
    }

    fn start(&self, p: u8) -> Option<u8> {
        self.policies.get(usize::from(p)).map(|policy| policy.start)
    }

    fn offends(&self, p: u8, q: u8) -> Option<bool> {
        self.row(p, q).map(|row| row.offends)
    }

    fn step(&self, p: u8, q: u8, e: u8) -> Option<(u8, bool)> {
        let next = self.row(p, q)?.next[usize::from(e)];
        Some((next, self.offends(p, next)?))
    }
}
