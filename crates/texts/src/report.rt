// What is printed of a text.
ghost use Rattle.std.specs.Prelude.{IfOk, Some, string_bytes};
ghost use Rattle.texts.specs.Reports.{Reported, Tallied, counts_text};

use crate::lists::{Counts, Lists};
use crate::reading::read;
use records::fault::Fault;
use records::record::{
    BadRecord, DefRecord, EdgeRecord, MarkRecord, NodeRecord, PolicyRecord, TariffRecord,
};
use std::alloc::{AllocError, Global};
use std::fmt;

// As `accepted policies=1 bads=1 edges=2 quota=none marks=0 nodes=6 defs=2 tariffs=2`. The first word, the quota and the blank behind it are
// pieces of their own, as they always were: a writer that takes no more keeps what it got.
impl fmt::Display for Counts {
    ghost output = { λ n. Some (counts_text n) };

    fn fmt<W: fmt::Write>(&self, f: &mut fmt::Formatter<W>) -> fmt::Result {
        let Counts {
            policies,
            bads,
            edges,
            quota,
            marks,
            nodes,
            defs,
            tariffs,
        } = *self;
        f.write_str("accepted ")?;
        write!(f, "policies={policies} bads={bads} edges={edges} quota=")?;
        match quota {
            Some(k) => write!(f, "{k}")?,
            None => f.write_str("none")?,
        }
        f.write_str(" ")?;
        write!(
            f,
            "marks={marks} nodes={nodes} defs={defs} tariffs={tariffs}"
        )
    }
}

// Reads a text into lists that are long enough for every text, and tells how many records there are. It asks for no memory.
pub fn tally(text: &[u8]) -> Result<Counts, Fault>
    ensures { Tallied text.now result }
{
    let mut policies = [PolicyRecord::default(); 8];
    let mut bads = [BadRecord::default(); 64];
    let mut edges = [EdgeRecord::default(); 512];
    let mut marks = [MarkRecord::default(); 256];
    let mut nodes = [NodeRecord::default(); 128];
    let mut defs = [DefRecord::default(); 32];
    let mut tariffs = [TariffRecord::default(); 256];
    let mut lists = Lists {
        policies: &mut policies,
        bads: &mut bads,
        edges: &mut edges,
        marks: &mut marks,
        nodes: &mut nodes,
        defs: &mut defs,
        tariffs: &mut tariffs,
    };
    read(text, &mut lists)
}

// The line that a text gets: its counts, or why it is refused.
pub fn report(heap: Global, text: &[u8]) -> Result<String, AllocError>
    ensures { IfOk result (λ line. Reported text.now (string_bytes line)) }
{
    match tally(text) {
        Ok(counts) => format!(in heap; "{counts}\n"),
        Err(fault) => format!(in heap; "{fault}\n"),
    }
}
