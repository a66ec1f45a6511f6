// One line of a text.
ghost use Rattle.std.specs.Prelude.{◌≡◌, ◌≤◌, length, MatchOption};
ghost use Rattle.records.specs.declared.record.Line.TheVariants.{Policy, Bad, Edge, Quota, Mark, Node, Def, Tariff};
ghost use Rattle.texts.specs.Fields.{Reads};
ghost use Rattle.texts.specs.Lines.{Begins, LineAt, NoLine, ReadsLine, kind_field, unused};

use crate::number::{field, last_field};
use records::record::{
    BadRecord, DefRecord, EdgeRecord, Kind, Line, MarkRecord, NodeRecord, PolicyRecord,
    TariffRecord,
};

// The kind whose letter stands behind its key.
fn kind(text: &[u8]) -> Option<(Kind, &[u8])>
    ensures { Reads (λ kind rest. text.now ≡ kind_field kind rest) result }
{
    let (letter, rest) = text.strip_prefix(b" kind=")?.split_first()?;
    Some((Kind::try_from(*letter).ok()?, rest))
}

// Whether the fields that the node's kind does not use are 0.
fn unused_are_zero(node: NodeRecord) -> bool
    ensures { result ≡ unused node.kind node.a node.b }
{
    match node.kind {
        Kind::Empty => node.a == 0 && node.b == 0,
        Kind::Event | Kind::Call => node.b == 0,
        Kind::Seq | Kind::Choice | Kind::Frame => true,
    }
}

// One function for each kind, which reads as its line does; one for several would take keys and a maker, and say no less.
fn policy_line(text: &[u8]) -> Option<(Line, &[u8])>
    ensures { ReadsLine Policy text.now result }
{
    let (policy, rest) = field(text, b"policy=")?;
    let (states, rest) = field(rest, b" states=")?;
    let (start, rest) = last_field(rest, b" start=")?;
    let record = PolicyRecord {
        policy,
        states,
        start,
    };
    Some((Line::Policy(record), rest))
}

fn bad_line(text: &[u8]) -> Option<(Line, &[u8])>
    ensures { ReadsLine Bad text.now result }
{
    let (policy, rest) = field(text, b"bad=")?;
    let (state, rest) = last_field(rest, b" state=")?;
    Some((Line::Bad(BadRecord { policy, state }), rest))
}

fn edge_line(text: &[u8]) -> Option<(Line, &[u8])>
    ensures { ReadsLine Edge text.now result }
{
    let (policy, rest) = field(text, b"edge=")?;
    let (from, rest) = field(rest, b" from=")?;
    let (event, rest) = field(rest, b" event=")?;
    let (to, rest) = last_field(rest, b" to=")?;
    let record = EdgeRecord {
        policy,
        from,
        event,
        to,
    };
    Some((Line::Edge(record), rest))
}

fn quota_line(text: &[u8]) -> Option<(Line, &[u8])>
    ensures { ReadsLine Quota text.now result }
{
    let (quota, rest) = last_field(text, b"quota=")?;
    Some((Line::Quota(quota), rest))
}

fn mark_line(text: &[u8]) -> Option<(Line, &[u8])>
    ensures { ReadsLine Mark text.now result }
{
    let (event, rest) = last_field(text, b"mark=")?;
    Some((Line::Mark(MarkRecord { event }), rest))
}

fn node_line(text: &[u8]) -> Option<(Line, &[u8])>
    ensures { ReadsLine Node text.now result }
{
    let (node, rest) = field(text, b"node=")?;
    let (kind, rest) = kind(rest)?;
    let (a, rest) = field(rest, b" a=")?;
    let (b, rest) = last_field(rest, b" b=")?;
    let record = NodeRecord { node, kind, a, b };
    if !unused_are_zero(record) {
        return None;
    }
    Some((Line::Node(record), rest))
}

fn def_line(text: &[u8]) -> Option<(Line, &[u8])>
    ensures { ReadsLine Def text.now result }
{
    let (def, rest) = field(text, b"def=")?;
    let (node, rest) = last_field(rest, b" node=")?;
    Some((Line::Def(DefRecord { def, node }), rest))
}

fn tariff_line(text: &[u8]) -> Option<(Line, &[u8])>
    ensures { ReadsLine Tariff text.now result }
{
    let (event, rest) = field(text, b"tariff=")?;
    let (cost, rest) = last_field(rest, b" cost=")?;
    Some((Line::Tariff(TariffRecord { event, cost }), rest))
}

// The line that the text begins with.
fn first_line(text: &[u8]) -> Option<(Line, &[u8])>
    ensures { Reads (Begins text.now) result }
{
    node_line(text)
        .or_else(|| edge_line(text))
        .or_else(|| policy_line(text))
        .or_else(|| bad_line(text))
        .or_else(|| quota_line(text))
        .or_else(|| mark_line(text))
        .or_else(|| def_line(text))
        .or_else(|| tariff_line(text))
}

// The line that begins at `at`, and where it ends.
pub(crate) fn line_at(text: &[u8], at: usize) -> Option<(Line, usize)>
    requires { at ≤ length text.now }
    ensures { MatchOption result (NoLine text.now at) (λ p. LineAt text.now at p.0 p.1) }
{
    let (line, rest) = first_line(&text[at..])?;
    Some((line, text.len() - rest.len()))
}
