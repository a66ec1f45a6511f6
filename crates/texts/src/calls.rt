// Where the line of a node stands.
ghost use Rattle.std.specs.Prelude.{◌≡◌, ◌<◌, length};
ghost use Rattle.records.specs.Rules.{Records};
ghost use Rattle.texts.specs.Contents.{Room};
ghost use Rattle.texts.specs.Readings.{NodeAt, Passed};
ghost use Rattle.texts.specs.Walks.{is_line_of};

use crate::walk::Lines;
use records::record::Line;

fn is_line_of(n: u64, line: Option<Line>) -> bool
    ensures { result ≡ is_line_of n line }
{
    matches!(line, Some(Line::Node(r)) if r.node == n)
}

// The place of the line of node n, in a text that has it, else the text's end: walks the text again. It is a `for`, since `find` would give
// the place with the line, to be taken out.
pub(crate) fn node_place(text: &[u8], n: u64) -> usize
    ensures { (room : Room) (rs : Records) → Passed room text.now (length text.now) rs → n < length rs.nodes → NodeAt room text.now n result }
{
    for (at, line) in Lines::of(text) {
        if is_line_of(n, line) {
            return at;
        }
    }
    text.len()
}
