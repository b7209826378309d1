//! How the serving of a connection ends.

/// How the serving of a connection ended.
#[derive(Clone, Copy, Debug, PartialEq, Eq)]
pub enum End {
    /// The source ended between two messages.
    Closed,
    /// The last request asked for the end.
    Asked,
    /// As many requests were answered as a connection may have, or their replies' bodies have as many bytes as
    /// one may keep.
    Spent,
    /// The next message was refused with 400. It begins behind `at` bytes.
    BadMessage { at: u64 },
    /// The head of the next message is longer than 65,536 bytes. It isn't told yet: `BadMessage` is.
    HeadTooLarge,
    /// The body of the next message is longer than 8,388,608 bytes. It isn't told yet: `BadMessage` is.
    BodyTooLarge,
    /// The source ended inside a message, of which there are `have` bytes.
    Cut { have: u64 },
    /// A read failed. Each whole request that had been read was answered.
    ReadFault,
    /// A write failed. A front of the text was written.
    WriteFault,
    /// There was no memory. Nothing of the next text was written.
    NoMemory,
}
