// Asks the board and the scale.
use crate::banded::Banded;
use crate::ordered::Ordered;
use boards::board::Board;
use boards::joined::Joined;
use boards::journal::state_after;
use boards::quota::Quota;
use scales::history::effort_of;
use scales::scale::Scale;
use std::test::Fail;

const BOARD: Ordered = Ordered { first: 5, then: 7 };

#[test]
fn answers(rt: HostRuntime) {
    assert_eq!(rt; BOARD.count(), 1);
    assert_eq!(rt; BOARD.states(0), Some(3));
    assert_eq!(rt; BOARD.start(0), Some(0));
    assert_eq!(rt; BOARD.offends(0, 1), Some(false));
    assert_eq!(rt; BOARD.offends(0, 2), Some(true));
}

#[test]
fn steps(rt: HostRuntime) {
    assert_eq!(rt; BOARD.step(0, 0, 5), Some((1, false)));
    assert_eq!(rt; BOARD.step(0, 0, 7), Some((2, true)));
    assert_eq!(rt; BOARD.step(0, 0, 9), Some((0, false)));
    assert_eq!(rt; BOARD.step(0, 1, 7), Some((1, false)));
    assert_eq!(rt; BOARD.step(0, 2, 5), Some((2, true)));
    let same = Ordered { first: 5, then: 5 };
    assert_eq!(rt; same.step(0, 0, 5), Some((1, false)));
}

#[test]
fn not_there(rt: HostRuntime) {
    assert_eq!(rt; BOARD.states(1), None);
    assert_eq!(rt; BOARD.start(1), None);
    assert_eq!(rt; BOARD.offends(1, 0), None);
    assert_eq!(rt; BOARD.offends(0, 3), None);
    assert_eq!(rt; BOARD.step(1, 0, 5), None);
    assert_eq!(rt; BOARD.step(0, 3, 5), None);
}

#[test]
fn joined(rt: HostRuntime) -> Result<(), Fail> {
    let mut marked = [false; 256];
    marked[9] = true;
    let board = Joined {
        first: BOARD,
        second: Quota::new(2, marked)?,
    };
    assert_eq!(rt; board.count(), 2);
    assert_eq!(rt; board.states(0), Some(3));
    assert_eq!(rt; board.states(1), Some(4));
    assert_eq!(rt; board.step(0, 0, 7), Some((2, true)));
    assert_eq!(rt; board.step(1, 2, 9), Some((3, true)));
    Ok(())
}

#[test]
fn after_a_journal(rt: HostRuntime) {
    let journal = [9, 5, 7];
    assert_eq!(rt; state_after(&BOARD, 0, &journal, 1), Some(0));
    assert_eq!(rt; state_after(&BOARD, 0, &journal, 3), Some(1));
    assert_eq!(rt; state_after(&BOARD, 0, &journal, 4), None);
}

#[test]
fn efforts(rt: HostRuntime) {
    let mut costs = [0; 256];
    costs[5] = 1200;
    costs[7] = 1900;
    let less: Banded = effort_of(&[256, 5], &costs);
    let more: Banded = effort_of(&[256, 7, 5], &costs);
    assert_eq!(rt; less, Banded { cost: 1200 });
    assert_eq!(rt; more, Banded { cost: 1900 });
    assert!(rt; less.at_most(more));
    assert!(rt; more.at_most(less));
    assert!(rt; !Banded::of_cost(2000).at_most(more));
}
