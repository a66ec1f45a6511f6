// Which of two joined boards a policy comes from, with its number there. Neither is a failure, so it is no `Result`.
#[derive(Clone, Copy, Debug, PartialEq, Eq)]
pub enum Side {
    First(u8),
    Second(u8),
}
