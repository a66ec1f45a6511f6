// The rules that a line keeps after the records before it.
ghost use Rattle.std.specs.Prelude.{◌≡◌, Bool, length, MatchOption};
ghost use Rattle.records.specs.Breaks.{Tested, breach_at};
ghost use Rattle.records.specs.Faults.{answer, at_place};
ghost use Rattle.records.specs.Rules.{AllCalled, FirstUncalled, breach, call_there, earlier_bad, earlier_edge, earlier_mark, earlier_tariff, held, in_limits, in_order, is_there, parts_in_limits, parts_there, rises, state_there};

use crate::fault::Fault;
use crate::listed::Record;
use crate::record::{
    BadRecord, EdgeRecord, Kind, Line, MarkRecord, NodeRecord, Sofar, TariffRecord,
};

// Records that come in the order of some of their fields: a derived order of edges and tariffs would compare `to` and `cost` too.
trait Rising: Record {
    ghost earlier: { Self → Self → Bool };

    fn is_earlier(self, other: Self) -> bool
        ensures { result ≡ earlier self other };
}

impl Rising for BadRecord {
    ghost earlier = { earlier_bad };

    fn is_earlier(self, other: BadRecord) -> bool {
        self < other
    }
}

impl Rising for EdgeRecord {
    ghost earlier = { earlier_edge };

    fn is_earlier(self, other: EdgeRecord) -> bool {
        (self.policy, self.from, self.event) < (other.policy, other.from, other.event)
    }
}

impl Rising for MarkRecord {
    ghost earlier = { earlier_mark };

    fn is_earlier(self, other: MarkRecord) -> bool {
        self.event < other.event
    }
}

impl Rising for TariffRecord {
    ghost earlier = { earlier_tariff };

    fn is_earlier(self, other: TariffRecord) -> bool {
        self.event < other.event
    }
}

// Whether a record comes after the last of these.
fn rises<R: Rising>(records: &[R], next: R) -> bool
    ensures { result ≡ rises R.earlier R.Record.blank records.now next }
{
    records.last().is_none_or(|last| last.is_earlier(next))
}

impl NodeRecord {
    fn has_parts_in_limits(self) -> bool
        ensures { result ≡ parts_in_limits self.kind self.a self.b }
    {
        match self.kind {
            Kind::Empty => true,
            Kind::Event => self.a < 256,
            Kind::Seq | Kind::Choice => self.a < 128 && self.b < 128,
            Kind::Frame => self.a < 8 && self.b < 128,
            Kind::Call => self.a < 32,
        }
    }

    fn has_parts_there(self) -> bool
        ensures { result ≡ parts_there self.kind self.node self.a self.b }
    {
        match self.kind {
            Kind::Empty | Kind::Event | Kind::Call => true,
            Kind::Seq | Kind::Choice => self.a < self.node && self.b < self.node,
            Kind::Frame => self.b < self.node,
        }
    }

    fn has_call_there(self, defs: usize) -> bool
        ensures { result ≡ call_there defs self }
    {
        match self.kind {
            Kind::Call => self.a < defs as u64,
            Kind::Empty | Kind::Event | Kind::Seq | Kind::Choice | Kind::Frame => true,
        }
    }
}

impl Sofar<'_> {
    fn has_state(self, policy: u64, state: u64) -> bool
        ensures { result ≡ state_there self.entry.policies.now policy state }
    {
        self.policies
            .get(policy as usize)
            .is_some_and(|record| state < record.states)
    }

    fn keeps_order(self, line: Line) -> bool
        ensures { result ≡ in_order (held self.entry) line }
    {
        let no_tariffs = self.tariffs.is_empty();
        let no_defs = self.defs.is_empty() && no_tariffs;
        let no_nodes = self.nodes.is_empty() && no_defs;
        let no_marks = self.marks.is_empty() && no_nodes;
        let no_quota = self.quota.is_none() && no_marks;
        let no_edges = self.edges.is_empty() && no_quota;
        let no_bads = self.bads.is_empty() && no_edges;
        match line {
            Line::Policy(r) => no_bads && r.policy == self.policies.len() as u64,
            Line::Bad(r) => no_edges && rises(self.bads, r),
            Line::Edge(r) => no_quota && rises(self.edges, r),
            Line::Quota(_) => no_quota,
            Line::Mark(r) => no_nodes && rises(self.marks, r),
            Line::Node(r) => no_defs && r.node == self.nodes.len() as u64,
            Line::Def(r) => no_tariffs && r.def == self.defs.len() as u64,
            Line::Tariff(r) => rises(self.tariffs, r),
        }
    }

    fn keeps_limits(self, line: Line) -> bool
        ensures { result ≡ in_limits (held self.entry) line }
    {
        match line {
            Line::Policy(r) => r.policy < 8 && r.states > 0 && r.states <= 8 && r.start < 8,
            Line::Bad(r) => r.policy < 8 && r.state < 8,
            Line::Edge(r) => self.edges.len() < 512
                && r.policy < 8
                && r.from < 8
                && r.event < 256
                && r.to < 8,
            Line::Quota(k) => k < 7,
            Line::Mark(r) => r.event < 256,
            Line::Node(r) => r.node < 128 && r.has_parts_in_limits(),
            Line::Def(r) => r.def < 32 && r.node < 128,
            Line::Tariff(r) => r.event < 256 && r.cost > 0 && r.cost <= 4294967295,
        }
    }

    fn names_are_there(self, line: Line) -> bool
        ensures { result ≡ is_there (held self.entry) line }
    {
        match line {
            Line::Policy(r) => r.start < r.states,
            Line::Bad(r) => self.has_state(r.policy, r.state),
            Line::Edge(r) => self.has_state(r.policy, r.from) && self.has_state(r.policy, r.to),
            Line::Mark(_) => self.quota.is_some(),
            Line::Node(r) => r.has_parts_there(),
            Line::Def(r) => r.node < self.nodes.len() as u64,
            Line::Quota(_) | Line::Tariff(_) => true,
        }
    }
}

// Refuses a line that is out of order, out of limits or names what is not there, with the first of these.
#[tactic(auto, unfolding(crate::specs::Rules::breach))]
pub fn check(sofar: Sofar, line: Line, place: usize) -> Result<(), Fault>
    ensures { answer result ≡ at_place place (breach (held sofar.entry) line) }
{
    if !sofar.keeps_order(line) {
        return Err(Fault::Order(place));
    }
    if !sofar.keeps_limits(line) {
        return Err(Fault::Limit(place));
    }
    if !sofar.names_are_there(line) {
        return Err(Fault::Missing(place));
    }
    Ok(())
}

// Tests each of these records after those before it, which stand among the records so far in place of those of their kind. Its place is
// its number.
pub fn check_each<'a, R: Record>(sofar: Sofar<'a>, these: &'a [R]) -> Result<(), Fault>
    ensures { Tested (breach_at R.line R.among R.blank (held sofar.entry) these.now) (length these.now) result }
{
    for (k, record) in these.iter().enumerate() {
        check(R::among(sofar, &these[0..k]), record.line(), k)?;
    }
    Ok(())
}

// The lowest node that calls a definition which is not there.
pub fn undefined_call(nodes: &[NodeRecord], defs: usize) -> Option<usize>
    ensures { MatchOption result (AllCalled nodes.now defs (length nodes.now)) (λ n. FirstUncalled nodes.now defs n) }
{
    nodes.iter().position(|node| !node.has_call_there(defs))
}
