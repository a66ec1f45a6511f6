// Builds the policies of a table board from records that keep the rules.
ghost use Rattle.std.specs.Prelude.{◌≡◌, IfOk, MatchResult};
ghost use Rattle.std.specs.List.{Contains};
ghost use Rattle.records.specs.Faults.{told};
ghost use Rattle.boards.specs.Meanings.{Same, SameAutomaton};
ghost use Rattle.boards.specs.Tables.{bad_in};
ghost use Rattle.table_board.specs.Making.{Broken, Kept};
ghost use Rattle.table_board.specs.Policies.{automaton_of, laid_out};

use crate::rows::{Policy, Row};
use records::fault::Fault;
use records::record::{BadRecord, EdgeRecord, PolicyRecord, Sofar};
use records::rules::check_each;
use std::alloc::{AllocError, Global};

// Policies, bads and edges that keep the rules: three lists of three types, none as long as another.
#[derive(Clone, Copy, Debug, PartialEq, Eq)]
pub(crate) struct Source<'a> {
    policies: &'a [PolicyRecord],
    bads: &'a [BadRecord],
    edges: &'a [EdgeRecord],
    ghost kept: { Kept policies.now bads.now edges.now },
}

impl<'a> Source<'a> {
    ghost use Rattle.table_board.specs.Building.{AreRowsOf, IsRowOf, meant};

    // These records, or the first break of a rule.
    pub(crate) fn checked(
        policies: &'a [PolicyRecord],
        bads: &'a [BadRecord],
        edges: &'a [EdgeRecord],
    ) -> Result<Source<'a>, Fault>
        ensures { MatchResult result (λ source. (source.policies.now ≡ policies.now) × (source.bads.now ≡ bads.now) × (source.edges.now ≡ edges.now)) (λ fault. Broken policies.now bads.now edges.now (told fault)) }
    {
        let empty = Sofar::default();
        check_each(empty, policies)?;
        let behind = Sofar { policies, ..empty };
        check_each(behind, bads)?;
        check_each(Sofar { bads, ..behind }, edges)?;
        Ok(Source {
            policies,
            bads,
            edges,
        })
    }

    // Whether a bad record makes the state offend.
    fn is_bad(&self, policy: u64, state: u64) -> bool
        ensures { result ≡ bad_in self.now.bads.now policy state }
    {
        self.bads
            .iter()
            .any(|bad| bad.policy == policy && bad.state == state)
    }

    // The row of a policy's state. A missing edge leaves the state. It is a `for`, since a fold over an array is no plainer.
    fn row(&self, policy: u64, state: u8) -> Row
        ensures { IsRowOf ((meant self.now).automaton policy) state result }
    {
        let from = u64::from(state);
        let mut next = [state; 256];
        for edge in self.edges {
            if edge.policy == policy && edge.from == from {
                next[edge.event as usize] = edge.to as u8;
            }
        }
        Row {
            offends: self.is_bad(policy, from),
            next,
        }
    }

    // A row for each state.
    fn rows(&self, heap: Global, policy: u64, states: u8) -> Result<Vec<Row>, AllocError>
        ensures { IfOk result (λ rows. AreRowsOf ((meant self.now).automaton policy) states rows.items) }
    {
        (0..states)
            .map(|state| self.row(policy, state))
            .collect(heap)
    }

    // The policy of a record.
    fn made_policy(&self, heap: Global, given: PolicyRecord) -> Result<Policy, AllocError>
        requires { Contains self.now.policies.now given }
        ensures { IfOk result (λ policy. SameAutomaton (automaton_of policy) ((meant self.now).automaton given.policy)) }
    {
        Ok(Policy {
            start: given.start as u8,
            rows: self.rows(heap, given.policy, given.states as u8)?,
        })
    }

    // A policy for each record. It is a `for`, since the proof of a chain that may want memory at each item is longer than the loop.
    pub(crate) fn made_policies(&self, heap: Global) -> Result<Vec<Policy>, AllocError>
        ensures { IfOk result (λ policies. Same (laid_out policies.items) (meant self.now)) }
    {
        let mut made = Vec::new(heap);
        for given in self.policies {
            made.push(self.made_policy(heap, *given)?)?;
        }
        Ok(made)
    }
}
