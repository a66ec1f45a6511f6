// A board of one policy that allows k marked events.
ghost use Rattle.std.specs.Prelude.{◌≡◌, ◌+◌, ◌<◌, ◌≤◌, length, IfOk, if◌then◌else◌, Some, None, nat_le};
ghost use Rattle.records.specs.declared.fault.Layer.TheVariants as layer;
ghost use Rattle.records.specs.Faults.{answer, refusal};
ghost use Rattle.boards.specs.Quotas.{counter, quota};
ghost use Rattle.std.proofs.Common.{rules};

use crate::board::Board;
use records::fault::Fault;

#[derive(Clone, Copy, Debug, PartialEq, Eq)]
pub struct Quota {
    k: u8,
    marked: [bool; 256],
    ghost small: { k ≤ 6 },
    ghost whole: { length marked ≡ 256 },
}

impl Quota {
    // Allows k of the marked events; refuses a k above 6.
    pub fn new(k: u8, marked: [bool; 256]) -> Result<Quota, Fault>
        ensures refuses { answer result ≡ (if nat_le k 6 then None else Some (refusal 3 layer.Table 0)) }
        ensures makes { IfOk result (λ b. (b.k ≡ k) × (b.marked ≡ marked)) }
    {
        if k > 6 {
            return Err(Fault::Limit(0));
        }
        Ok(Quota { k, marked })
    }

    // Where event e leads from a state q that is there. It has no branch, since nobody can foretell which events of a journal are marked.
    fn next(&self, q: u8, e: u8) -> u8
        ensures { q < self.now.k + 2 → result ≡ (counter self.now.k self.now.marked).next q e }
    {
        q.saturating_add(u8::from(self.marked[usize::from(e)]))
            .min(self.k + 1)
    }
}

// One policy: a trait for such boards was tried, and is longer than what it saves.
impl Board for Quota {
    ghost meaning = { λ b. quota b.k b.marked };

    ghost sound = { Prim.search rules };

    fn count(&self) -> u8 {
        1
    }

    fn states(&self, p: u8) -> Option<u8> {
        (p == 0).then_some(self.k + 2)
    }

    fn start(&self, p: u8) -> Option<u8> {
        (p == 0).then_some(0)
    }

    fn offends(&self, p: u8, q: u8) -> Option<bool> {
        (p == 0 && q < self.k + 2).then_some(q == self.k + 1)
    }

    fn step(&self, p: u8, q: u8, e: u8) -> Option<(u8, bool)> {
        let next = self.next(q, e);
        (p == 0 && q < self.k + 2).then_some((next, next == self.k + 1))
    }
}
