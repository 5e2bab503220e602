//! The operations of reductions.
ghost use Rattle.std.specs.Prelude.{◌≡◌};

/// The operations of a reduction. (MPI 4.1, section 6.9.2 and 6.9.4.)
#[derive(Clone, Copy, Debug, PartialEq, Eq)]
pub enum Op {
    Max,
    Min,
    Sum,
    Prod,
    Land,
    Lor,
    Lxor,
    Band,
    Bor,
    Bxor,
    Maxloc,
    Minloc,
}

impl Op {
    ghost use Rattle.wall_labels.specs.Ops.{op_name, op_of};

    /// The operation's name, as policies, scripts and books spell it.
    pub fn name(self) -> &'static str
        ensures { result.now ≡ op_name self }
    {
        match self {
            Op::Max => "max",
            Op::Min => "min",
            Op::Sum => "sum",
            Op::Prod => "prod",
            Op::Land => "land",
            Op::Lor => "lor",
            Op::Lxor => "lxor",
            Op::Band => "band",
            Op::Bor => "bor",
            Op::Bxor => "bxor",
            Op::Maxloc => "maxloc",
            Op::Minloc => "minloc",
        }
    }

    /// The operation of that name, if there is one.
    #[tactic(auto, unfolding(crate::specs::Ops::op_of))]
    pub fn named(name: &[u8]) -> Option<Op>
        ensures { result ≡ op_of name.now }
    {
        match name {
            b"max" => Some(Op::Max),
            b"min" => Some(Op::Min),
            b"sum" => Some(Op::Sum),
            b"prod" => Some(Op::Prod),
            b"land" => Some(Op::Land),
            b"lor" => Some(Op::Lor),
            b"lxor" => Some(Op::Lxor),
            b"band" => Some(Op::Band),
            b"bor" => Some(Op::Bor),
            b"bxor" => Some(Op::Bxor),
            b"maxloc" => Some(Op::Maxloc),
            b"minloc" => Some(Op::Minloc),
            _ => None,
        }
    }
}
