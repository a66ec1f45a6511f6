// A board answers questions about its policies.
ghost use Rattle.std.specs.Prelude.{◌≡◌};
ghost use Rattle.boards.specs.Meanings.{Meaning, Sound, offends_of, start_of, states_of, step_of};

// Its ghost member is its meaning. A question about a policy or a state that is not there has no answer. A step answers a pair, since
// whoever runs a policy needs both at each event.
pub trait Board {
    ghost meaning: { Self → Meaning };

    // How many policies there are.
    fn count(&self) -> u8
        ensures { result ≡ (meaning self.now).count };

    // How many states policy p has.
    fn states(&self, p: u8) -> Option<u8>
        ensures { result ≡ states_of (meaning self.now) p };

    // Where policy p starts.
    fn start(&self, p: u8) -> Option<u8>
        ensures { result ≡ start_of (meaning self.now) p };

    // Whether state q of policy p offends.
    fn offends(&self, p: u8, q: u8) -> Option<bool>
        ensures { result ≡ offends_of (meaning self.now) p q };

    // The next state of policy p from state q at event e, and whether it offends.
    fn step(&self, p: u8, q: u8, e: u8) -> Option<(u8, bool)>
        ensures { result ≡ step_of (meaning self.now) p q e };

    ghost sound: { (b : Self) → Sound (meaning b) };
}
