// Where the records of a text go.
ghost use Rattle.std.specs.Prelude.{MatchOption};
ghost use Rattle.texts.specs.Contents.{Full, Pushed, Within, contents};

use crate::lists::{Counts, Lists};
use records::fault::Fault;
use records::record::{Line, Sofar};
use records::rules::check;

// Puts a record behind the first `used` of a list, if there is a free place.
fn push<T: Copy>(list: &mut [T], used: &mut usize, item: T) -> Option<()>
    ensures { MatchOption result (Full list.old list.new used.old used.new) (λ _. Pushed item list.old list.new used.old used.new) }
{
    if *used >= list.len() {
        return None;
    }
    list[*used] = item;
    *used += 1;
    Some(())
}

// The lists with the records so far at their fronts, and how many there are. The counts stand beside the lists: tried in one struct for
// each, reborrowed from the caller's, the proof lost what the lists hold at the end.
#[derive(Drop)]
pub(crate) struct Store<'a, 'b> {
    pub(crate) lists: &'a mut Lists<'b>,
    pub(crate) counts: Counts,
    ghost within: { Within counts (contents lists.now) },
}

impl Store<'_, '_> {
    ghost use Rattle.std.specs.Prelude.{◌≡◌, MatchResult};
    ghost use Rattle.records.specs.Faults.{answer, at_place};
    ghost use Rattle.records.specs.Rules.{held};
    ghost use Rattle.texts.specs.Contents.{broken};
    ghost use Rattle.texts.specs.Stores.{NoPlace, Put, Unchanged, records_of, room_of};

    // The records so far.
    pub(crate) fn sofar(&self) -> Sofar<'_>
        ensures { held result ≡ records_of self.now }
    {
        let lists: &Lists = self.lists;
        let counts = self.counts;
        Sofar {
            policies: &lists.policies[..counts.policies],
            bads: &lists.bads[..counts.bads],
            edges: &lists.edges[..counts.edges],
            quota: counts.quota,
            marks: &lists.marks[..counts.marks],
            nodes: &lists.nodes[..counts.nodes],
            defs: &lists.defs[..counts.defs],
            tariffs: &lists.tariffs[..counts.tariffs],
        }
    }

    // Puts the record of a line behind the others of its kind, if its list has a free place.
    fn put(&mut self, line: Line) -> Option<()>
        ensures { MatchOption result (NoPlace line self.old self.new) (λ _. Put line self.old self.new) }
    {
        let lists = &mut *self.lists;
        let counts = &mut self.counts;
        match line {
            Line::Policy(r) => push(lists.policies, &mut counts.policies, r),
            Line::Bad(r) => push(lists.bads, &mut counts.bads, r),
            Line::Edge(r) => push(lists.edges, &mut counts.edges, r),
            Line::Quota(k) => {
                counts.quota = Some(k);
                Some(())
            }
            Line::Mark(r) => push(lists.marks, &mut counts.marks, r),
            Line::Node(r) => push(lists.nodes, &mut counts.nodes, r),
            Line::Def(r) => push(lists.defs, &mut counts.defs, r),
            Line::Tariff(r) => push(lists.tariffs, &mut counts.tariffs, r),
        }
    }

    // Puts a line's record behind those so far, or refuses it with the first rule that it breaks.
    #[tactic(auto, unfolding(crate::specs::Contents::broken))]
    pub(crate) fn add(&mut self, line: Line, place: usize) -> Result<(), Fault>
        ensures answer { answer result ≡ at_place place (broken (room_of self.old) (records_of self.old) line) }
        ensures put { MatchResult result (λ _. Put line self.old self.new) (λ _. Unchanged self.old self.new) }
    {
        check(self.sofar(), line, place)?;
        self.put(line).ok_or(Fault::NoRoom(place))
    }
}
