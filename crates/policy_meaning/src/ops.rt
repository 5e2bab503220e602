//! The operations, by number.
ghost use Rattle.std.specs.Prelude.{◌≡◌};

use wall_labels::Op;

/// All operations, by number.
pub(crate) const OPS: [Op; 12] = [
    Op::Max,
    Op::Min,
    Op::Sum,
    Op::Prod,
    Op::Land,
    Op::Lor,
    Op::Lxor,
    Op::Band,
    Op::Bor,
    Op::Bxor,
    Op::Maxloc,
    Op::Minloc,
];
