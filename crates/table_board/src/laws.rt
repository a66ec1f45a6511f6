// A law of table boards, held by the contract of a function.
ghost use Rattle.table_board.specs.Making.{EdgesAreObeyed};

// Each edge record leads where it says.
pub fn edges_are_obeyed()
    ensures { EdgesAreObeyed }
{}
