//! Where a book begins.

use std::marker::Brand;

/// What the sink of a book had at the opening of its hall. It is picked in a proof, where the sink
/// is given, and has no bytes: a hall that kept it as a value of the sink's type could go to no
/// other thread.
pub trait Begun {
    ghost use Rattle.live_book.specs.Books.{SinkValue};

    ghost begun: { SinkValue };
}

/// The one that is picked where a hall is opened.
impl Begun for Brand {
    ghost use Rattle.live_book.specs.Books.{empty_sink};

    ghost begun = { empty_sink };
}
