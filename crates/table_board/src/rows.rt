// The parts of a table board.
ghost use Rattle.boards.specs.Meanings.{Closed};
ghost use Rattle.table_board.specs.Rows.{automaton};

// Whether a state offends, and where each event leads from it.
#[derive(Clone, Copy, Debug, PartialEq, Eq)]
pub struct Row {
    pub(crate) offends: bool,
    pub(crate) next: [u8; 256],
}

// Where a policy starts, and a row for each of its states: 1 to 8, with the start and all that they lead to among them.
#[derive(Drop, Debug, PartialEq, Eq)]
pub struct Policy {
    pub(crate) start: u8,
    pub(crate) rows: Vec<Row>,
    ghost closed: { Closed (automaton start rows.items) },
}
