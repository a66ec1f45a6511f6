// Makings of table boards: what they answer, and each refusal with its place.
ghost use Rattle.std.specs.Prelude.{◌≡◌};

use boards::board::Board;
use boards::journal::state_after;
use records::fault::{Layer, Refusal, refused};
use records::record::{BadRecord, EdgeRecord, PolicyRecord};
use std::array;
use std::test::Fail;
use table_board::table::TableBoard;

// States 0, 1, 2; 5 leads from 0 to 1, 7 from 1 to 2, and 2 offends.
pub const POLICY: PolicyRecord = PolicyRecord {
    policy: 0,
    states: 3,
    start: 0,
};

pub const BAD: BadRecord = BadRecord {
    policy: 0,
    state: 2,
};

pub const FIVE: EdgeRecord = EdgeRecord {
    policy: 0,
    from: 0,
    event: 5,
    to: 1,
};

pub const SEVEN: EdgeRecord = EdgeRecord {
    policy: 0,
    from: 1,
    event: 7,
    to: 2,
};

pub(crate) fn policy(p: u64, states: u64, start: u64) -> PolicyRecord
    ensures { result ≡ record { policy = p; states = states; start = start } }
{
    PolicyRecord {
        policy: p,
        states,
        start,
    }
}

fn bad(p: u64, state: u64) -> BadRecord
    ensures { result ≡ record { policy = p; state = state } }
{
    BadRecord { policy: p, state }
}

fn edge(p: u64, from: u64, event: u64, to: u64) -> EdgeRecord
    ensures { result ≡ record { policy = p; from = from; event = event; to = to } }
{
    EdgeRecord {
        policy: p,
        from,
        event,
        to,
    }
}

pub(crate) const TABLE: Layer = Layer::Table;

#[test]
fn answers(rt: HostRuntime) -> Result<(), Fail> {
    let board = TableBoard::from_records(rt.alloc(), &[POLICY], &[BAD], &[FIVE, SEVEN])?;
    assert_eq!(rt; board.count(), 1);
    assert_eq!(rt; board.states(0), Some(3));
    assert_eq!(rt; board.states(1), None);
    assert_eq!(rt; board.start(0), Some(0));
    assert_eq!(rt; board.start(1), None);
    assert_eq!(rt; board.offends(0, 1), Some(false));
    assert_eq!(rt; board.offends(0, 2), Some(true));
    assert_eq!(rt; board.offends(0, 3), None);
    assert_eq!(rt; board.offends(1, 0), None);
    assert_eq!(rt; board.step(0, 0, 5), Some((1, false)));
    assert_eq!(rt; board.step(0, 1, 7), Some((2, true)));
    assert_eq!(rt; board.step(0, 1, 5), Some((1, false)));
    assert_eq!(rt; board.step(0, 2, 0), Some((2, true)));
    assert_eq!(rt; board.step(0, 3, 5), None);
    assert_eq!(rt; board.step(1, 0, 5), None);
    Ok(())
}

#[test]
fn after_a_journal(rt: HostRuntime) -> Result<(), Fail> {
    let board = TableBoard::from_records(rt.alloc(), &[POLICY], &[BAD], &[FIVE, SEVEN])?;
    assert_eq!(rt; state_after(&board, 0, &[7, 5, 9, 7], 0), Some(0));
    assert_eq!(rt; state_after(&board, 0, &[7, 5, 9, 7], 3), Some(1));
    assert_eq!(rt; state_after(&board, 0, &[7, 5, 9, 7], 4), Some(2));
    assert_eq!(rt; state_after(&board, 0, &[7, 5, 9, 7], 5), None);
    assert_eq!(rt; state_after(&board, 1, &[7, 5, 9, 7], 4), None);
    Ok(())
}

// The largest board, and a start that is not 0.
#[test]
fn eight_policies(rt: HostRuntime) -> Result<(), Fail> {
    let policies: [PolicyRecord; 9] = array::from_fn(|p| policy(p as u64, 8, 7));
    let edges = [edge(3, 7, 255, 1), edge(7, 7, 0, 2)];
    assert_eq!(rt;
        refused(&TableBoard::from_records(rt.alloc(), &policies, &[], &[])),
        Some(Refusal::new(3, TABLE, 8))
    );
    let board = TableBoard::from_records(rt.alloc(), &policies[0..8], &[bad(7, 2)], &edges)?;
    assert_eq!(rt; board.count(), 8);
    assert_eq!(rt; board.start(7), Some(7));
    assert_eq!(rt; board.step(3, 7, 255), Some((1, false)));
    assert_eq!(rt; board.step(7, 7, 0), Some((2, true)));
    assert_eq!(rt; board.step(7, 7, 255), Some((7, false)));
    assert_eq!(rt; board.step(8, 0, 0), None);
    Ok(())
}

#[test]
fn no_policies(rt: HostRuntime) -> Result<(), Fail> {
    let board = TableBoard::from_records(rt.alloc(), &[], &[], &[])?;
    assert_eq!(rt; board.count(), 0);
    assert_eq!(rt; board.states(0), None);
    Ok(())
}

#[test]
fn policies_refused(rt: HostRuntime) {
    let cases = [
        (policy(2, 3, 0), Some(Refusal::new(2, TABLE, 1))),
        (policy(1, 0, 0), Some(Refusal::new(3, TABLE, 1))),
        (policy(1, 9, 0), Some(Refusal::new(3, TABLE, 1))),
        (policy(1, 8, 8), Some(Refusal::new(3, TABLE, 1))),
        (policy(1, 3, 3), Some(Refusal::new(4, TABLE, 1))),
        (policy(1, 8, 7), None),
    ];
    for (second, answer) in cases {
        assert_eq!(rt;
            refused(&TableBoard::from_records(rt.alloc(), &[POLICY, second], &[], &[])),
            answer
        );
    }
}

#[test]
fn bads_refused(rt: HostRuntime) {
    let cases = [
        (bad(0, 1), Some(Refusal::new(2, TABLE, 1))),
        (bad(0, 0), Some(Refusal::new(2, TABLE, 1))),
        (bad(8, 0), Some(Refusal::new(3, TABLE, 1))),
        (bad(0, 8), Some(Refusal::new(3, TABLE, 1))),
        (bad(1, 0), Some(Refusal::new(4, TABLE, 1))),
        (bad(0, 3), Some(Refusal::new(4, TABLE, 1))),
        (bad(0, 2), None),
    ];
    for (second, answer) in cases {
        assert_eq!(rt;
            refused(&TableBoard::from_records(rt.alloc(), &[POLICY], &[bad(0, 1), second], &[])),
            answer
        );
    }
}

#[test]
fn edges_refused(rt: HostRuntime) {
    let cases = [
        (edge(0, 0, 5, 2), Some(Refusal::new(2, TABLE, 1))),
        (edge(0, 0, 4, 2), Some(Refusal::new(2, TABLE, 1))),
        (edge(8, 0, 5, 2), Some(Refusal::new(3, TABLE, 1))),
        (edge(0, 8, 5, 2), Some(Refusal::new(3, TABLE, 1))),
        (edge(0, 0, 256, 2), Some(Refusal::new(3, TABLE, 1))),
        (edge(0, 1, 5, 8), Some(Refusal::new(3, TABLE, 1))),
        (edge(1, 0, 5, 2), Some(Refusal::new(4, TABLE, 1))),
        (edge(0, 3, 5, 2), Some(Refusal::new(4, TABLE, 1))),
        (edge(0, 1, 5, 3), Some(Refusal::new(4, TABLE, 1))),
        (edge(0, 0, 6, 2), None),
    ];
    for (second, answer) in cases {
        assert_eq!(rt;
            refused(&TableBoard::from_records(rt.alloc(), &[POLICY], &[], &[FIVE, second])),
            answer
        );
    }
}

// 512 edges are taken, and one more is not.
#[test]
fn many_edges(rt: HostRuntime) -> Result<(), Fail> {
    let edges: [EdgeRecord; 513] = array::from_fn(|k| edge(
        0,
        (k / 256) as u64,
        (k % 256) as u64,
        1,
    ));
    assert_eq!(rt;
        refused(&TableBoard::from_records(rt.alloc(), &[POLICY], &[], &edges)),
        Some(Refusal::new(3, TABLE, 512))
    );
    let board = TableBoard::from_records(rt.alloc(), &[POLICY], &[], &edges[0..512])?;
    assert_eq!(rt; board.step(0, 0, 0), Some((1, false)));
    assert_eq!(rt; board.step(0, 1, 255), Some((1, false)));
    assert_eq!(rt; board.step(0, 2, 0), Some((2, false)));
    Ok(())
}

// Policies come before bads, and bads before edges.
#[test]
fn first_break(rt: HostRuntime) {
    let bads = [bad(0, 3)];
    let edges = [edge(0, 0, 256, 0)];
    assert_eq!(rt;
        refused(&TableBoard::from_records(rt.alloc(), &[policy(0, 3, 3)], &bads, &edges)),
        Some(Refusal::new(4, TABLE, 0))
    );
    assert_eq!(rt;
        refused(&TableBoard::from_records(rt.alloc(), &[POLICY], &bads, &edges)),
        Some(Refusal::new(4, TABLE, 0))
    );
    assert_eq!(rt;
        refused(&TableBoard::from_records(rt.alloc(), &[POLICY], &[BAD], &edges)),
        Some(Refusal::new(3, TABLE, 0))
    );
}
