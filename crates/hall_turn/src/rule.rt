//! The rule of the turns, and what each step tells.

use crate::machine::Machine;
use atomic_table::{Join, Play, Split, TableRule};
use std::marker::{Brand, Model, PhantomData};
use std::snapshot::Snapshot;
use wall_policy::Policy;

/// What a seat knows. No value of it is made.
pub struct View;

impl Model for View {
    ghost use Rattle.hall_turn.specs.Views.{SeatView, spent};

    ghost Value = { SeatView };

    ghost view = { λ v. spent };
}

/// The rule of the turns.
pub struct Turning;

impl<M: Machine> TableRule<Option<M>, View, Snapshot<Policy>> for Turning {
    ghost use Rattle.hall_turn.specs.Views.{newcomer};
    ghost use Rattle.hall_turn.specs.Turns.{Ruled};

    ghost holds = { λ key. Ruled M.stands key.value };

    ghost first = { λ key. newcomer key.value };
}

/// The run so far was seen. Where the ticket is served, the machine is out.
pub(crate) struct Look;

impl<M: Machine> Play<Option<M>, View> for Look {
    ghost use Rattle.hall_turn.specs.Steps.{Looks};

    ghost then = { Looks M.stands };
}

/// A ticket was drawn.
pub(crate) struct Draw;

impl<S> Play<S, View> for Draw {
    ghost use Rattle.hall_turn.specs.Steps.{Draws};

    ghost then = { Draws };
}

/// A call with its reply.
pub(crate) trait Saying {
    ghost use Rattle.run_model.specs.Runs.{Entry};

    ghost entry: { Entry };
}

impl Saying for Brand {
    ghost use Rattle.hall_turn.specs.Views.{no_entry};

    ghost entry = { no_entry };
}

/// The entry of the call was declared.
pub(crate) struct Declare<J> {
    of: PhantomData<J>,
}

impl<S, J: Saying> Play<S, View> for Declare<J> {
    ghost use Rattle.hall_turn.specs.Steps.{Declares};

    ghost then = { Declares J.entry };
}

/// The turn has ended.
pub(crate) struct Serve;

impl<S> Play<S, View> for Serve {
    ghost use Rattle.hall_turn.specs.Steps.{Serves};

    ghost then = { Serves };
}

/// The pass of the next process is made.
pub(crate) struct NextPass;

impl Split<View> for NextPass {
    ghost use Rattle.hall_turn.specs.Views.{maker_left, next_pass};

    ghost left = { maker_left };

    ghost right = { next_pass };
}

/// A note is made of what was seen.
pub(crate) struct AsNote;

impl Split<View> for AsNote {
    ghost use Rattle.hall_turn.specs.Views.{noted};

    ghost left = { λ v. v };

    ghost right = { noted };
}

/// A pass takes in a note.
pub(crate) struct Learn;

impl Join<View> for Learn {
    ghost use Rattle.hall_turn.specs.Views.{informed, spent};

    ghost both = { informed };

    ghost spent = { spent };
}

/// A pass takes in another, to close the door.
pub(crate) struct Gather;

impl Join<View> for Gather {
    ghost use Rattle.hall_turn.specs.Views.{gathered, spent};

    ghost both = { gathered };

    ghost spent = { spent };
}
