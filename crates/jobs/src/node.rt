// A node of a table; its parts are nodes with lower numbers.
#[derive(Clone, Copy, PartialEq, Eq, Debug)]
pub enum Node {
    Empty,
    Event(u8),
    // the left part, then the right part
    Seq(u8, u8),
    // the left part or the right part
    Choice(u8, u8),
    // a policy framed around a part
    Frame(u8, u8),
    // the body of a definition
    Call(u8),
}
