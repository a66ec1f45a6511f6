// Makes a table board from the records of its policies, bads and edges.
ghost use Rattle.table_board.specs.Making.{Makes, Only};

use crate::building::Source;
use crate::table::TableBoard;
use records::fault::Fault;
use records::record::{BadRecord, EdgeRecord, PolicyRecord};
use std::alloc::Global;

impl TableBoard {
    // Makes the board that the records say, or refuses the first break of a rule; it asks for memory once all rules are kept.
    #[tactic(auto, using(crate::proofs::Exclusive::answers))]
    pub fn from_records(
        heap: Global,
        policies: &[PolicyRecord],
        bads: &[BadRecord],
        edges: &[EdgeRecord],
    ) -> Result<TableBoard, Fault>
        ensures makes { Makes policies.now bads.now edges.now result }
        ensures only { Only policies.now bads.now edges.now result }
    {
        let source = Source::checked(policies, bads, edges)?;
        Ok(TableBoard {
            policies: source.made_policies(heap)?,
        })
    }
}
