// A board of one policy: one event must not come before another has come.
ghost use Rattle.std.specs.Prelude.{◌≡◌};
ghost use Rattle.owners.specs.Orders.{order, ordered};
ghost use Rattle.std.proofs.Common.{rules};

use boards::board::Board;

// The event `then` must not come before `first` has come.
#[derive(Clone, Copy, Debug, PartialEq, Eq)]
pub struct Ordered {
    pub first: u8,
    pub then: u8,
}

impl Ordered {
    // Where event e leads from state q.
    fn next(&self, q: u8, e: u8) -> u8
        ensures { result ≡ (order self.now.first self.now.then).next q e }
    {
        match q {
            0 if e == self.first => 1,
            0 if e == self.then => 2,
            _ => q,
        }
    }
}

// Alike to a quota in its questions, but of another type: each is a line.
impl Board for Ordered {
    ghost meaning = { λ b. ordered b.first b.then };

    ghost sound = { Prim.search rules };

    fn count(&self) -> u8 {
        1
    }

    fn states(&self, p: u8) -> Option<u8> {
        (p == 0).then_some(3)
    }

    fn start(&self, p: u8) -> Option<u8> {
        (p == 0).then_some(0)
    }

    fn offends(&self, p: u8, q: u8) -> Option<bool> {
        (p == 0 && q < 3).then_some(q == 2)
    }

    fn step(&self, p: u8, q: u8, e: u8) -> Option<(u8, bool)> {
        let next = self.next(q, e);
        (p == 0 && q < 3).then_some((next, next == 2))
    }
}
