//! How a run ends, and the number of each status.
ghost use Rattle.std.specs.Prelude.{◌≡◌};
ghost use Rattle.soqe_run.specs.Status.{number_of};

/// How a run ends.
#[derive(Clone, Copy, Debug, PartialEq, Eq)]
pub enum Status {
    /// The text was read to its end, and the document is written whole.
    Done,
    /// The words aren't taken, and the source isn't read.
    Usage,
    /// The text is no problem, and the answer tells the place from which none goes on.
    Syntax,
    /// A name of the text is refused: the answer tells where it stands.
    Names,
    /// A name of the text is used as its sorts do not allow, or an equation is between two sorts: the answer tells where.
    Sorts,
    /// The text is over its limit.
    TooLong,
    /// A read failed, and the source has counted a fault.
    ReadFault,
    /// A write failed, and the sink has counted a fault.
    WriteFault,
    /// Memory was wanting, and nothing is written.
    Memory,
    /// No try reaches a case of a block. The document's last line but one has the number of the case.
    NotReached,
    /// The predicate of a block occurs with both signs. The document's last line but one has the two places.
    Mixed,
}

impl Status {
    /// The number that the program ends with. It takes no memory.
    pub fn number(self) -> u8
        ensures { result ≡ number_of self }
    {
        match self {
            Status::Done => 0,
            Status::Usage => 2,
            Status::Syntax => 3,
            Status::Names => 4,
            Status::Sorts => 5,
            Status::TooLong => 6,
            Status::ReadFault => 7,
            Status::WriteFault => 8,
            Status::Memory => 9,
            Status::NotReached => 12,
            Status::Mixed => 14,
        }
    }
}
