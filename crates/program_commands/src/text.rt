//! Writes a whole text.
ghost use Rattle.std.specs.Prelude.{◌≡◌};
ghost use Rattle.hall_script.specs.Devices.{used};
ghost use Rattle.program_commands.specs.Endings.{EndsSo, WritesAll};

use crate::ending::{Ending, end};
use wall_labels::{Sink, write_all};

/// Writes a text, and that is all.
pub(crate) fn write_text<O: Sink>(out: &mut O, text: &[u8]) -> Ending<'static>
    ensures { WritesAll text.now (used O.failures O.contents out.old out.new) result }
{
    match write_all(out, text) {
        Ok(()) => Ending::Done,
        Err(_) => Ending::WriteFault,
    }
}

/// Writes a text to `out`, and the line of a fault to `err`, and gives the status: 0 where it was
/// written whole.
pub fn text_on<O: Sink, E: Sink>(text: &[u8], out: &mut O, err: &mut E) -> u8
    ensures { EndsSo
        (WritesAll text.now (used O.failures O.contents out.old out.new))
        (used E.failures E.contents err.old err.new)
        result }
{
    let ending = write_text(out, text);
    end(err, ending)
}
