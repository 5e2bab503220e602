//! The devices that a command is given, and gets back.

/// The devices of a command, but for those of the earlier books and of the book or page that it
/// keeps.
#[derive(Drop)]
pub struct Devices<'d, P, S, O, E> {
    /// The reader of its policy.
    pub policy: &'d mut P,
    /// The reader of what it is about: its script, or its book.
    pub subject: &'d mut S,
    /// The writer of its lines.
    pub out: &'d mut O,
    /// The writer of the line of a fault.
    pub err: &'d mut E,
}

/// The two streams of a command.
#[derive(Drop)]
pub struct Streams<'d, O, E> {
    /// The writer of its lines.
    pub out: &'d mut O,
    /// The writer of the line of a fault.
    pub err: &'d mut E,
}
