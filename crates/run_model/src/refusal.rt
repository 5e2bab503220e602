//! Why calls are refused.
ghost use Rattle.std.specs.Prelude.{◌≡◌};

use wall_labels::NoMemory;

/// Why a call is refused. A post is refused by the first of them that holds, in this order; the
/// posts before it alone decide those up to `Mismatch`. A take is refused by `NoSuchRequest`.
#[derive(Clone, Copy, Debug, PartialEq, Eq)]
pub enum Refusal {
    /// The policy has no such process.
    NoSuchProcess,
    /// There is no communicator of that number.
    NoSuchComm,
    /// The process is no member of the communicator.
    NotMember,
    /// A kind between neighbours, or `CartSub`, where the communicator has no grid.
    NoTopology,
    /// The root is at or above the size.
    BadRoot,
    /// The operation isn't one of the type's.
    BadOp,
    /// The elements or the counts aren't what the kind asks, are above the limit, or are of another
    /// type.
    BadCount,
    /// A negative colour.
    BadColour,
    /// `Create`: a rank is out of range or stands twice.
    NotSubgroup,
    /// The dimensions, the periods or the kept dimensions are wrong, or the grid is larger than the
    /// group.
    BadDims,
    /// The instance has another signature.
    Mismatch,
    /// The process has too many requests that it has not taken, or has used up their numbers.
    TooManyRequests,
    /// A growth of memory was refused.
    NoMemory,
    /// The request was never given, or was taken.
    NoSuchRequest,
}

impl From<NoMemory> for Refusal {
    ghost use Rattle.run_model.specs.declared.refusal.Refusal.TheVariants.{NoMemory};

    ghost from_gives = { λ _ refusal. refusal ≡ NoMemory };

    fn from(_refused: NoMemory) -> Refusal {
        Refusal::NoMemory
    }
}
