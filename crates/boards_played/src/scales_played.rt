// Efforts of some histories under Sum and Peak.
ghost use Rattle.std.specs.Prelude.{◌≡◌, replicate, slice_set};

use scales::efforts::{Peak, Sum};
use scales::history::effort_of;
use scales::scale::Scale;

// 5 costs 40, 7 costs 5, 255 as much as can be.
fn costs() -> [u32; 256]
    ensures { result ≡ slice_set (slice_set (slice_set (replicate 256 0) 5 40) 7 5) 255 4294967295 }
{
    let mut costs = [0; 256];
    costs[5] = 40;
    costs[7] = 5;
    costs[255] = 4294967295;
    costs
}

#[test]
fn efforts(rt: HostRuntime) {
    let costs = costs();
    assert_eq!(rt; effort_of::<Sum>(&[256, 5, 7], &costs), Sum { cost: 45 });
    assert_eq!(rt; effort_of::<Peak>(&[256, 5, 7], &costs), Peak { cost: 40 });
    assert_eq!(rt; effort_of::<Sum>(&[257, 9, 9, 9], &costs), Sum { cost: 0 });
    assert_eq!(rt;
        effort_of::<Peak>(&[257, 9, 9, 9], &costs),
        Peak { cost: 0 }
    );
    assert_eq!(rt; effort_of::<Sum>(&[], &costs), Sum { cost: 0 });
    assert_eq!(rt; effort_of::<Sum>(&[255], &costs), Sum { cost: 4294967295 });
    assert_eq!(rt;
        effort_of::<Sum>(&[255, 7], &costs),
        Sum { cost: 4294967295 }
    );
    assert_eq!(rt; effort_of::<Sum>(&[511, 519, 263], &costs), Sum { cost: 0 });
}

#[test]
fn compared(rt: HostRuntime) {
    let (five, forty) = (Sum::of_cost(5), Sum::of_cost(40));
    assert!(rt; five.at_most(forty));
    assert!(rt; five.at_most(five));
    assert!(rt; !forty.at_most(five));
    let (low, high) = (Peak::of_cost(5), Peak::of_cost(40));
    assert!(rt; low.at_most(high));
    assert!(rt; !high.at_most(low));
}
