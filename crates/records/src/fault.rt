// Why a call refuses.
ghost use Rattle.std.specs.Prelude.{◌≡◌};
ghost use Rattle.records.specs.declared.fault.Fault.TheVariants.{NoMemory};
ghost use Rattle.records.specs.Faults.{answer, refusal, told};

use std::alloc::AllocError;

// Which part of the checker refuses.
#[derive(Clone, Copy, PartialEq, Eq, Debug)]
pub enum Layer {
    Line,
    Table,
    Station,
}

// What is wrong, with its place.
#[derive(Clone, Copy, PartialEq, Eq, Debug)]
pub enum Fault {
    // the line that begins here is that of no record
    Form(usize),
    // kinds or numbers are out of order
    Order(usize),
    // a number or a count passes its limit
    Limit(usize),
    // what is named is not there
    Missing(usize),
    // the list for this record is too short
    NoRoom(usize),
    // there is no memory for what is to be made
    NoMemory,
    // the job is no definition
    NoJob(usize),
    // this node frames a policy that is not on the board
    StrayPolicy(usize),
    // a handed-in working list is too short
    ShortList,
    // an admission on a running station
    Running,
    // a step or a halt on an idle station
    Idle,
    // the job offends this policy
    Offends(usize),
    // the journal has no free byte
    JournalFull,
    // the stack has no free slot
    StackFull,
    // journal, stack and station do not belong together
    Mismatch,
}

// What is told of a fault.
#[derive(Clone, Copy, PartialEq, Eq, Debug)]
pub struct Refusal {
    pub number: u8,
    pub layer: Layer,
    pub place: usize,
}

impl Refusal {
    pub fn new(number: u8, layer: Layer, place: usize) -> Refusal
        ensures { result ≡ refusal number layer place }
    {
        Refusal {
            number,
            layer,
            place,
        }
    }
}

impl Fault {
    // What is told of this fault.
    pub fn refusal(self) -> Refusal
        ensures { result ≡ told self }
    {
        match self {
            Fault::Form(place) => Refusal::new(1, Layer::Line, place),
            Fault::Order(place) => Refusal::new(2, Layer::Table, place),
            Fault::Limit(place) => Refusal::new(3, Layer::Table, place),
            Fault::Missing(place) => Refusal::new(4, Layer::Table, place),
            Fault::NoJob(job) => Refusal::new(5, Layer::Station, job),
            Fault::StrayPolicy(node) => Refusal::new(6, Layer::Station, node),
            Fault::NoRoom(place) => Refusal::new(7, Layer::Table, place),
            Fault::ShortList => Refusal::new(7, Layer::Station, 0),
            Fault::Running => Refusal::new(20, Layer::Station, 0),
            Fault::Idle => Refusal::new(21, Layer::Station, 0),
            Fault::Offends(policy) => Refusal::new(22, Layer::Station, policy),
            Fault::JournalFull => Refusal::new(23, Layer::Station, 0),
            Fault::StackFull => Refusal::new(24, Layer::Station, 0),
            Fault::Mismatch => Refusal::new(25, Layer::Station, 0),
            Fault::NoMemory => Refusal::new(99, Layer::Table, 0),
        }
    }

    pub fn number(self) -> u8
        ensures { result ≡ (told self).number }
    {
        self.refusal().number
    }

    pub fn layer(self) -> Layer
        ensures { result ≡ (told self).layer }
    {
        self.refusal().layer
    }

    pub fn place(self) -> usize
        ensures { result ≡ (told self).place }
    {
        self.refusal().place
    }
}

// Want of memory.
impl From<AllocError> for Fault {
    ghost from_gives = { λ _ fault. fault ≡ NoMemory };

    fn from(_: AllocError) -> Self {
        Self::NoMemory
    }
}

// What is told of a call's answer: nothing where the call did not refuse.
pub fn refused<T>(call: &Result<T, Fault>) -> Option<Refusal>
    ensures { result ≡ answer call.now }
{
    call.as_ref().err().map(|fault| fault.refusal())
}
