//! Numbers at native width.
#![tactic(auto)]

ghost use Rattle.std.specs.Prelude.{◌≡◌, ℤ, int_lt, is_some, IfSome, true};
ghost use Rattle.mpi_elems.specs.Numbers.{is_number_of};
ghost use Rattle.mpi_elems.specs.Operations.{on_numbers, is_nonzero as is_nonzero_number, truth};
ghost use Rattle.mpi_elems.specs.declared.elem_type.ElemType.{ElemType as TypeOfElements};
ghost use Rattle.wall_labels.specs.declared.op.Op.TheVariants.{Sum, Prod, Band, Bor, Bxor};

/// A native number, which stands for a whole number.
pub trait Native: Copy {
    // the type whose numbers these are
    ghost kind: { TypeOfElements };

    ghost number: { Self → ℤ };

    /// The number, if the type has it.
    fn from_number(wanted: i128) -> Option<Self>
        ensures some { IfSome result (λ native. number native ≡ wanted) }
        ensures which { is_some result ≡ is_number_of kind wanted };

    fn to_number(self) -> i128
        ensures same { result ≡ number self }
        ensures within { is_number_of kind result ≡ true };

    fn is_below(self, other: Self) -> bool
        ensures { result ≡ int_lt (number self) (number other) };

    fn is_nonzero(self) -> bool
        ensures { result ≡ is_nonzero_number (number self) };

    fn of_truth(holds: bool) -> Self
        ensures { number result ≡ truth holds };

    fn sum_of(self, other: Self) -> Self
        ensures { number result ≡ on_numbers Sum kind (number self) (number other) };

    fn product_of(self, other: Self) -> Self
        ensures { number result ≡ on_numbers Prod kind (number self) (number other) };

    fn bits_and(self, other: Self) -> Self
        ensures { number result ≡ on_numbers Band kind (number self) (number other) };

    fn bits_or(self, other: Self) -> Self
        ensures { number result ≡ on_numbers Bor kind (number self) (number other) };

    fn bits_xor(self, other: Self) -> Self
        ensures { number result ≡ on_numbers Bxor kind (number self) (number other) };
}
