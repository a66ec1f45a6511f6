// What the lines of a text say.

// The kind of a node.
#[derive(Clone, Copy, PartialEq, Eq, Debug, Default)]
pub enum Kind {
    #[default]
    Empty,
    Event,
    Seq,
    Choice,
    Frame,
    Call,
}

// policy=p states=n start=s
#[derive(Clone, Copy, PartialEq, Eq, Debug, Default)]
pub struct PolicyRecord {
    pub policy: u64,
    pub states: u64,
    pub start: u64,
}

// bad=p state=q
#[derive(Clone, Copy, PartialEq, Eq, PartialOrd, Ord, Debug, Default)]
pub struct BadRecord {
    pub policy: u64,
    pub state: u64,
}

// edge=p from=q event=e to=r
#[derive(Clone, Copy, PartialEq, Eq, Debug, Default)]
pub struct EdgeRecord {
    pub policy: u64,
    pub from: u64,
    pub event: u64,
    pub to: u64,
}

// mark=e
#[derive(Clone, Copy, PartialEq, Eq, Debug, Default)]
pub struct MarkRecord {
    pub event: u64,
}

// node=n kind=K a=A b=B
#[derive(Clone, Copy, PartialEq, Eq, Debug, Default)]
pub struct NodeRecord {
    pub node: u64,
    pub kind: Kind,
    pub a: u64,
    pub b: u64,
}

// def=d node=n
#[derive(Clone, Copy, PartialEq, Eq, Debug, Default)]
pub struct DefRecord {
    pub def: u64,
    pub node: u64,
}

// tariff=e cost=c
#[derive(Clone, Copy, PartialEq, Eq, Debug, Default)]
pub struct TariffRecord {
    pub event: u64,
    pub cost: u64,
}

// One line; a quota line has only its number.
#[derive(Clone, Copy, PartialEq, Eq, Debug)]
pub enum Line {
    Policy(PolicyRecord),
    Bad(BadRecord),
    Edge(EdgeRecord),
    Quota(u64),
    Mark(MarkRecord),
    Node(NodeRecord),
    Def(DefRecord),
    Tariff(TariffRecord),
}

// The records of the lines so far: lists of different types, none as long as another.
#[derive(Clone, Copy, PartialEq, Eq, Debug, Default)]
pub struct Sofar<'a> {
    pub policies: &'a [PolicyRecord],
    pub bads: &'a [BadRecord],
    pub edges: &'a [EdgeRecord],
    pub quota: Option<u64>,
    pub marks: &'a [MarkRecord],
    pub nodes: &'a [NodeRecord],
    pub defs: &'a [DefRecord],
    pub tariffs: &'a [TariffRecord],
}
