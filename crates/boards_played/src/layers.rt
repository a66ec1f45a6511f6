// Quota boards, and boards made of boards.
ghost use Rattle.std.specs.Prelude.{◌≡◌, if◌then◌else◌, Some, None, nat_le};
ghost use Rattle.records.specs.Faults.{answer, refusal};
ghost use Rattle.records.specs.declared.fault.Layer.TheVariants as layer;

use crate::making::{BAD, FIVE, POLICY, SEVEN, TABLE, policy};
use boards::board::Board;
use boards::joined::Joined;
use boards::journal::state_after;
use boards::quota::Quota;
use boards::translated::Translated;
use records::fault::{Fault, Refusal, refused};
use records::record::PolicyRecord;
use std::array;
use std::test::Fail;
use table_board::table::TableBoard;

// At most k events 9.
fn nines(k: u8) -> Result<Quota, Fault>
    ensures { answer result ≡ (if nat_le k 6 then None else Some (refusal 3 layer.Table 0)) }
{
    let mut marked = [false; 256];
    marked[9] = true;
    Quota::new(k, marked)
}

#[test]
fn quota_answers(rt: HostRuntime) -> Result<(), Fail> {
    let board = nines(2)?;
    assert_eq!(rt; board.count(), 1);
    assert_eq!(rt; board.states(0), Some(4));
    assert_eq!(rt; board.start(0), Some(0));
    assert_eq!(rt; board.offends(0, 2), Some(false));
    assert_eq!(rt; board.offends(0, 3), Some(true));
    assert_eq!(rt; board.offends(0, 4), None);
    assert_eq!(rt; board.step(0, 0, 8), Some((0, false)));
    assert_eq!(rt; board.step(0, 0, 9), Some((1, false)));
    assert_eq!(rt; board.step(0, 2, 9), Some((3, true)));
    assert_eq!(rt; board.step(0, 3, 9), Some((3, true)));
    assert_eq!(rt; board.step(0, 4, 9), None);
    assert_eq!(rt; board.step(1, 0, 9), None);
    assert_eq!(rt; state_after(&board, 0, &[9, 8, 9], 3), Some(2));
    Ok(())
}

// k goes from 0 to 6.
#[test]
fn quota_limits(rt: HostRuntime) -> Result<(), Fail> {
    assert_eq!(rt; nines(0)?.step(0, 0, 9), Some((1, true)));
    assert_eq!(rt; nines(6)?.states(0), Some(8));
    assert_eq!(rt; refused(&nines(7)), Some(Refusal::new(3, TABLE, 0)));
    Ok(())
}

#[test]
fn joined_answers(rt: HostRuntime) -> Result<(), Fail> {
    let first = TableBoard::from_records(rt.alloc(), &[POLICY], &[BAD], &[FIVE, SEVEN])?;
    let board = Joined {
        first,
        second: nines(2)?,
    };
    assert_eq!(rt; board.count(), 2);
    assert_eq!(rt; board.states(0), Some(3));
    assert_eq!(rt; board.states(1), Some(4));
    assert_eq!(rt; board.states(2), None);
    assert_eq!(rt; board.start(1), Some(0));
    assert_eq!(rt; board.offends(0, 2), Some(true));
    assert_eq!(rt; board.offends(1, 2), Some(false));
    assert_eq!(rt; board.offends(1, 4), None);
    assert_eq!(rt; board.step(0, 1, 7), Some((2, true)));
    assert_eq!(rt; board.step(1, 2, 9), Some((3, true)));
    assert_eq!(rt; board.step(2, 0, 9), None);
    assert_eq!(rt; state_after(&board, 1, &[5, 9, 7, 9], 4), Some(2));
    Ok(())
}

// Two boards of five policies each have eight together.
#[test]
fn joined_is_cut(rt: HostRuntime) -> Result<(), Fail> {
    let mut policies: [PolicyRecord; 5] = array::from_fn(|p| policy(p as u64, 3, 0));
    let first = TableBoard::from_records(rt.alloc(), &policies, &[], &[])?;
    policies[2].states = 8;
    policies[2].start = 7;
    let second = TableBoard::from_records(rt.alloc(), &policies, &[], &[])?;
    let board = Joined { first, second };
    assert_eq!(rt; board.count(), 8);
    assert_eq!(rt; board.states(6), Some(3));
    assert_eq!(rt; board.states(7), Some(8));
    assert_eq!(rt; board.start(7), Some(7));
    assert_eq!(rt; board.states(8), None);
    assert_eq!(rt; board.start(8), None);
    assert_eq!(rt; board.offends(8, 0), None);
    assert_eq!(rt; board.step(8, 0, 0), None);
    Ok(())
}

// Every event is read as the one behind it.
#[test]
fn translated_answers(rt: HostRuntime) -> Result<(), Fail> {
    let map: [u8; 256] = array::from_fn(|e| ((e + 1) % 256) as u8);
    let board = Translated {
        below: nines(1)?,
        map,
    };
    assert_eq!(rt; board.count(), 1);
    assert_eq!(rt; board.states(0), Some(3));
    assert_eq!(rt; board.start(0), Some(0));
    assert_eq!(rt; board.offends(0, 2), Some(true));
    assert_eq!(rt; board.step(0, 0, 9), Some((0, false)));
    assert_eq!(rt; board.step(0, 0, 8), Some((1, false)));
    assert_eq!(rt; board.step(0, 1, 8), Some((2, true)));
    assert_eq!(rt; board.step(0, 3, 8), None);
    assert_eq!(rt; state_after(&board, 0, &[9, 8, 8], 3), Some(2));
    Ok(())
}
