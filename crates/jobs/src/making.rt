// Makes a table from the records of its nodes and definitions.
ghost use Rattle.std.specs.Prelude.{◌≡◌, true, map, length, IfOk, MatchResult};
ghost use Rattle.records.specs.Faults.{told};
ghost use Rattle.records.specs.Rules.{AllCalled, parts_in_limits};
ghost use Rattle.jobs.specs.Making.{BadCall, BodiesFit, Broken, Kept, Makes, NodesFit, Only, body_of, node_of};

use crate::node::Node;
use crate::table::Table;
use records::fault::Fault;
use records::record::{DefRecord, Kind, NodeRecord, Sofar};
use records::rules::{check_each, undefined_call};
use std::alloc::{AllocError, Global};

// Tests that each called definition is there; the place is the node's, where a reading tells that of its line.
fn check_calls(nodes: &[NodeRecord], defs: usize) -> Result<(), Fault>
    ensures { MatchResult result (λ _. AllCalled nodes.now defs (length nodes.now)) (λ fault. BadCall nodes.now defs (told fault)) }
{
    match undefined_call(nodes, defs) {
        Some(n) => Err(Fault::Missing(n)),
        None => Ok(()),
    }
}

// Refuses the first break of a rule.
fn check_records(nodes: &[NodeRecord], defs: &[DefRecord]) -> Result<(), Fault>
    ensures { MatchResult result (λ _. Kept nodes.now defs.now) (λ fault. Broken nodes.now defs.now (told fault)) }
{
    let empty = Sofar::default();
    check_each(empty, nodes)?;
    check_each(Sofar { nodes, ..empty }, defs)?;
    check_calls(nodes, defs.len())
}

// The node that a record says; a field that its kind does not use is not looked at. It cannot fail, so it is no `TryFrom`.
fn node_of(from: NodeRecord) -> Node
    requires { parts_in_limits from.kind from.a from.b ≡ true }
    ensures { result ≡ node_of from }
{
    match from.kind {
        Kind::Empty => Node::Empty,
        Kind::Event => Node::Event(from.a as u8),
        Kind::Seq => Node::Seq(from.a as u8, from.b as u8),
        Kind::Choice => Node::Choice(from.a as u8, from.b as u8),
        Kind::Frame => Node::Frame(from.a as u8, from.b as u8),
        Kind::Call => Node::Call(from.a as u8),
    }
}

fn made_nodes(heap: Global, records: &[NodeRecord]) -> Result<Vec<Node>, AllocError>
    requires { NodesFit records.now }
    ensures { IfOk result (λ v. v.items ≡ map node_of records.now) }
{
    records.iter().map(|from| node_of(*from)).collect(heap)
}

fn made_bodies(heap: Global, records: &[DefRecord]) -> Result<Vec<u8>, AllocError>
    requires { BodiesFit records.now }
    ensures { IfOk result (λ v. v.items ≡ map body_of records.now) }
{
    records.iter().map(|from| from.node as u8).collect(heap)
}

impl Table {
    // Makes the table that the records say, or refuses the first break of a rule; it asks for memory once all rules are kept.
    #[tactic(auto, using(crate::proofs::Exclusive::answers))]
    pub fn from_records(
        heap: Global,
        nodes: &[NodeRecord],
        defs: &[DefRecord],
    ) -> Result<Table, Fault>
        ensures makes { Makes nodes.now defs.now result }
        ensures only { Only nodes.now defs.now result }
    {
        check_records(nodes, defs)?;
        Ok(Table {
            nodes: made_nodes(heap, nodes)?,
            bodies: made_bodies(heap, defs)?,
        })
    }
}
