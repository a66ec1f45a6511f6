// Lists that are too short, and what a reading leaves in them.
use records::fault::{Layer, Refusal, refused};
use records::record::{
    BadRecord, DefRecord, EdgeRecord, Kind, MarkRecord, NodeRecord, PolicyRecord, TariffRecord,
};
use texts::lists::Lists;
use texts::reading::read;

// A text with two lines of each kind, but for the quota.
const TWO: &str =
    "policy=0 states=2 start=0\npolicy=1 states=2 start=0\nbad=0 state=1\nbad=1 state=1\nedge=0 from=0 event=5 to=1\nedge=1 from=0 event=5 to=1\nquota=1\nmark=5\nmark=6\nnode=0 kind=z a=0 b=0\nnode=1 kind=z a=0 b=0\ndef=0 node=0\ndef=1 node=1\ntariff=5 cost=1\ntariff=6 cost=1\n";

// How long each list is, from 0 to 2.
#[derive(Clone, Copy)]
struct Sizes {
    policies: usize,
    bads: usize,
    edges: usize,
    marks: usize,
    nodes: usize,
    defs: usize,
    tariffs: usize,
}

const ENOUGH: Sizes = Sizes {
    policies: 2,
    bads: 2,
    edges: 2,
    marks: 2,
    nodes: 2,
    defs: 2,
    tariffs: 2,
};

// Records that no text has.
const POLICY: PolicyRecord = PolicyRecord {
    policy: 9,
    states: 9,
    start: 9,
};

const BAD: BadRecord = BadRecord {
    policy: 9,
    state: 9,
};

const EDGE: EdgeRecord = EdgeRecord {
    policy: 9,
    from: 9,
    event: 9,
    to: 9,
};

const MARK: MarkRecord = MarkRecord { event: 999 };

const NODE: NodeRecord = NodeRecord {
    node: 999,
    kind: Kind::Call,
    a: 9,
    b: 9,
};

const DEF: DefRecord = DefRecord { def: 99, node: 9 };

const TARIFF: TariffRecord = TariffRecord {
    event: 999,
    cost: 9,
};

const TABLE: Layer = Layer::Table;

// The refusal of the text for lists of these sizes.
fn played(sizes: Sizes) -> Option<Refusal> {
    let (mut policies, mut bads, mut edges) = ([POLICY; 2], [BAD; 2], [EDGE; 2]);
    let (mut marks, mut nodes, mut defs, mut tariffs) = (
        [MARK; 2],
        [NODE; 2],
        [DEF; 2],
        [TARIFF; 2],
    );
    let mut lists = Lists {
        policies: &mut policies[..sizes.policies.min(2)],
        bads: &mut bads[..sizes.bads.min(2)],
        edges: &mut edges[..sizes.edges.min(2)],
        marks: &mut marks[..sizes.marks.min(2)],
        nodes: &mut nodes[..sizes.nodes.min(2)],
        defs: &mut defs[..sizes.defs.min(2)],
        tariffs: &mut tariffs[..sizes.tariffs.min(2)],
    };
    refused(&read(TWO.as_bytes(), &mut lists))
}

#[test]
fn one_too_short(rt: HostRuntime) {
    assert_eq!(rt; played(ENOUGH), None);
    assert_eq!(rt;
        played(Sizes {
            policies: 1,
            ..ENOUGH
        }),
        Some(Refusal::new(7, TABLE, 26))
    );
    assert_eq!(rt;
        played(Sizes { bads: 1, ..ENOUGH }),
        Some(Refusal::new(7, TABLE, 66))
    );
    assert_eq!(rt;
        played(Sizes { edges: 1, ..ENOUGH }),
        Some(Refusal::new(7, TABLE, 107))
    );
    assert_eq!(rt;
        played(Sizes { marks: 1, ..ENOUGH }),
        Some(Refusal::new(7, TABLE, 149))
    );
    assert_eq!(rt;
        played(Sizes { nodes: 1, ..ENOUGH }),
        Some(Refusal::new(7, TABLE, 178))
    );
    assert_eq!(rt;
        played(Sizes { defs: 1, ..ENOUGH }),
        Some(Refusal::new(7, TABLE, 213))
    );
    assert_eq!(rt;
        played(Sizes {
            tariffs: 1,
            ..ENOUGH
        }),
        Some(Refusal::new(7, TABLE, 242))
    );
}

#[test]
fn left_by_a_refusal(rt: HostRuntime) {
    let (mut policies, mut bads, mut nodes) = ([POLICY; 2], [BAD; 2], [NODE; 2]);
    let mut lists = Lists {
        policies: &mut policies,
        bads: &mut bads,
        edges: &mut [],
        marks: &mut [],
        nodes: &mut nodes,
        defs: &mut [],
        tariffs: &mut [],
    };
    let text = b"policy=0 states=3 start=1\nbad=0 state=2\nbad=0 state=1\n";
    assert_eq!(rt;
        refused(&read(text, &mut lists)),
        Some(Refusal::new(2, TABLE, 40))
    );
    let policy = PolicyRecord {
        policy: 0,
        states: 3,
        start: 1,
    };
    assert_eq!(rt; policies, [policy, POLICY]);
    let bad = BadRecord {
        policy: 0,
        state: 2,
    };
    assert_eq!(rt; bads, [bad, BAD]);
    assert_eq!(rt; nodes, [NODE; 2]);
}
