// Why a call is refused. specs/Answers.antt gives the number and the values of each reply.

#[derive(Clone, Copy, Debug, PartialEq, Eq)]
pub enum DagRefusal {
    StoreBad,
    ListTooLong,
    DuplicateNullifier,
    TooManyParents { count: usize, limit: usize },
    TooFewParents { count: usize, limit: usize },
    // The place of the missing parent in the call's list.
    MissingParent(usize),
    NameRoom,
    ChildRoom,
    NullifierRoom,
}
