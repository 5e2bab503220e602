//! What becomes of a sink.
use crate::unbooked::Unbooked;

/// A sink whose book is finished.
#[derive(Drop)]
pub struct Finished<B> {
    pub sink: B,
    /// Whether the whole book was written.
    pub written: Result<(), Unbooked>,
}

/// A sink whose book was not begun.
#[derive(Drop)]
pub struct Unopened<B> {
    pub sink: B,
    pub fault: Unbooked,
}
