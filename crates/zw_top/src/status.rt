// How a session ends.

/// How a session ends. The number is the exit status of the program.
#[derive(Clone, Copy, Debug, PartialEq, Eq)]
pub enum Status {
    /// The stream was read to its end.
    Done = 0,
    /// The words are refused.
    Usage = 2,
    /// The configuration or the tree is refused.
    Config = 3,
    /// A read of the stream failed.
    ReadFault = 4,
    /// A write failed.
    WriteFault = 5,
    /// A call of the folder failed.
    FolderFault = 6,
    /// Memory ran out.
    Memory = 7,
    /// A limit is passed.
    Limit = 8,
}
