//! What a look finds of a post.
ghost use Rattle.std.specs.Prelude.{◌≡◌};
ghost use Rattle.coll_routes.specs.Faults.{stated_type};

use coll_pending::Meeting;
use coll_routes::{Own, Signature, Stated};
use mpi_elems::ElemType;
use wall_labels::ProcessId;

/// What is judged of a post by itself: its signature, what its member states for itself, and that
/// it gives so many elements of this type.
#[derive(Clone, Copy)]
pub struct Terms<'a> {
    pub sig: &'a Signature,
    pub own: &'a Own,
    pub elem_type: ElemType,
    pub given: usize,
}

impl<'a> Terms<'a> {
    /// Those of a statement, whose elements are of the type of its signature.
    pub fn of(stated: &'a Stated) -> Terms<'a>
        ensures sig { result.sig.now ≡ stated.now.sig }
        ensures own { result.own.now ≡ stated.now.own }
        ensures elem_type { result.elem_type ≡ stated_type stated.now.sig }
        ensures given { result.given ≡ stated.now.given }
    {
        Terms {
            sig: &stated.sig,
            own: &stated.own,
            elem_type: stated.sig.elem_type().unwrap_or(ElemType::Int8),
            given: stated.given as usize,
        }
    }
}

/// What a look finds of a post that meets no refusal: who posts, and what the post meets, of which
/// `does` says whether it joins an instance that waits for others too. The step that takes it looks
/// nothing up again. It holds until the next post.
#[derive(Clone, Copy)]
pub struct Seat {
    pub process: ProcessId,
    pub meeting: Meeting,
}
