//! What shows that a machine had written down what it has to.
ghost use Rattle.std.specs.Prelude.{◌≡◌, option_map};
ghost use Rattle.hall_turn.specs.Receipts.{Covered, IsHeadAt, nothing_known};

use crate::head::Head;
use crate::machine::Machine;
use hall_core::Hall;

/// What shows how far something was written. Whoever has one that covers a text knows that the text
/// was written before: where its type is one that only a device can make, nobody else can show it.
pub trait Receipt {
    /// The bytes that had been written when it was made, where they are known, and how far the
    /// text had come, where it says so.
    ghost covers: { Self → Covered } = { λ _. nothing_known };

    /// How far the text had come, where it says so.
    fn head(&self) -> Option<Head>
        ensures { IsHeadAt (covers self.now).extent result };
}

/// Of what writes nothing down.
impl Receipt for () {
    fn head(&self) -> Option<Head> {
        None
    }
}

/// None where nothing is written down.
impl<T: Receipt> Receipt for Option<T> {
    ghost use Rattle.std.specs.Prelude.{None, Some};

    ghost covers = { elim [ None ↦ nothing_known | (Some receipt) ↦ T.covers receipt ] };

    fn head(&self) -> Option<Head> {
        match self {
            Some(receipt) => receipt.head(),
            None => None,
        }
    }
}

/// A machine that gives receipts of what it has written down.
pub trait Receipts<T: Receipt>: Machine {
    /// A receipt of all that it had to write down so far, if that was written.
    fn receipt(&self) -> Option<T>
        ensures { option_map T.covers result ≡ Self.booked self.now };
}

impl Receipts<()> for Hall {
    fn receipt(&self) -> Option<()> {
        Some(())
    }
}
