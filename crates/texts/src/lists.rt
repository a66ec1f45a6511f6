// The lists that a text is read into.
use records::record::{
    BadRecord, DefRecord, EdgeRecord, MarkRecord, NodeRecord, PolicyRecord, TariffRecord,
};

// One list for each line kind that can repeat, handed in by the caller: a reading asks for no memory.
#[derive(Drop)]
pub struct Lists<'a> {
    pub policies: &'a mut [PolicyRecord],
    pub bads: &'a mut [BadRecord],
    pub edges: &'a mut [EdgeRecord],
    pub marks: &'a mut [MarkRecord],
    pub nodes: &'a mut [NodeRecord],
    pub defs: &'a mut [DefRecord],
    pub tariffs: &'a mut [TariffRecord],
}

// How many records each list got, and the quota if there is one.
#[derive(Clone, Copy, PartialEq, Eq, Debug, Default)]
pub struct Counts {
    pub policies: usize,
    pub bads: usize,
    pub edges: usize,
    pub quota: Option<u64>,
    pub marks: usize,
    pub nodes: usize,
    pub defs: usize,
    pub tariffs: usize,
}
