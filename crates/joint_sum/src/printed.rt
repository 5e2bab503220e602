//! The end of the program: its text is printed, or its fault told.
ghost use Rattle.std.specs.Prelude.{◌≡◌, IfOk, IfErr, OnOk, IsOk, IsErr, Err};
ghost use Rattle.std.specs.Io.KnownBytes.{Appends};
ghost use Rattle.std.specs.Process.{exit_status};

use anyhow::{Error, Result};
use std::io::{Eprint, Write};
use std::process::{ExitCode, Termination};

/// Whether the text was printed. `print` alone makes one, and since it is not `Drop`, `main` can
/// but hand it on: a fault is told, and not thrown away.
pub struct Printed(Result<()>);

// The line and the status of a fault are those of a `main` that returns it in a `Result`.
impl Termination for Printed {
    fn report<R: Eprint>(self, rt: &R) -> ExitCode
        ensures done { IsOk self.0 → exit_status result ≡ 0 }
        ensures fault { IsErr self.0 → exit_status result ≡ 1 }
    {
        let Printed(outcome) = self;
        match outcome {
            Ok(()) => ExitCode::SUCCESS,
            Err(fault) => {
                let _ = rt.eprintln(format_args!("Error: {fault:?}"));
                ExitCode::FAILURE
            }
        }
    }
}

/// Writes the text, if there is one.
pub fn print<W: Write>(out: &mut W, text: Result<Vec<u8>>) -> Printed
    ensures fault { IfErr text (λ fault. result.0 ≡ Err fault) }
    ensures written { OnOk result.0
        (IfOk text (λ t. Appends (W.contents out.old) (W.contents out.new) t.items)) }
{
    match text {
        Ok(text) => Printed(out.write_all(&text).map_err(Error::from)),
        Err(fault) => Printed(Err(fault)),
    }
}
