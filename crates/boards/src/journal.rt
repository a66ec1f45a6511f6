// What a policy has come to after a journal of events.
ghost use Rattle.std.specs.Prelude.{◌≡◌, length, take, if◌then◌else◌, None, nat_le};
ghost use Rattle.boards.specs.Meanings.{state_after};

use crate::board::Board;

// The state of policy p after the first `count` events of the journal; none where the policy or one of these events is not there.
// Journal and count come apart, since a journal that is handed in has free places behind the events.
pub fn state_after<B: Board>(board: &B, p: u8, journal: &[u8], count: usize) -> Option<u8>
    ensures { result ≡ (if nat_le count (length journal.now) then state_after (B.Board.meaning board.now) p (take count journal.now) else None) }
{
    let used = journal.get(..count)?;
    let mut state = board.start(p)?;
    for event in used {
        (state, _) = board.step(p, state, *event)?;
    }
    Some(state)
}
