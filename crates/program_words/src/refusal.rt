//! Refused growth, and a system that has no words to give, as faults of the words.
use crate::words::ArgFault;
use std::alloc::AllocError;
use std::io;
use std::io::ErrorKind;

impl From<AllocError> for ArgFault {
    ghost use Rattle.std.specs.Prelude.{◌≡◌};
    ghost use Rattle.program_words.specs.declared.words.ArgFault.TheVariants.{NoMemory};

    ghost from_gives = { λ error fault. fault ≡ NoMemory };

    fn from(_error: AllocError) -> ArgFault {
        ArgFault::NoMemory
    }
}

impl From<io::Error> for ArgFault {
    ghost use Rattle.std.specs.IoError.{error_kind};
    ghost use Rattle.program_words.specs.Refusal.{IsFaultOf};

    ghost from_gives = { λ error fault. IsFaultOf (error_kind error) fault };

    fn from(error: io::Error) -> ArgFault {
        match error.kind() {
            ErrorKind::OutOfMemory => ArgFault::NoMemory,
            _ => ArgFault::BadArguments,
        }
    }
}
