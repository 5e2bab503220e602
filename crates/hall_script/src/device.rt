//! Reads a whole device.
ghost use Rattle.std.specs.Prelude.{IfOk, IfErr};
ghost use Rattle.hall_script.specs.Devices.{used, IsRead, IsReadFault};

use std::alloc::{AllocError, Global};
use thiserror::Error;
use wall_labels::{NoMemory, Source};

/// Why a device was not read to its end.
#[derive(Clone, Copy, Debug, PartialEq, Eq, Error)]
pub enum DeviceFault {
    /// The reader failed, or gave more than the limit.
    #[error("read fault")]
    Read,
    /// Memory ran out.
    #[error("out of memory")]
    NoMemory,
}

impl From<NoMemory> for DeviceFault {
    ghost use Rattle.std.specs.Prelude.{◌≡◌};
    ghost use Rattle.hall_script.specs.declared.device.DeviceFault.TheVariants.{NoMemory};

    ghost from_gives = { λ _ e. e ≡ NoMemory };

    fn from(_refused: NoMemory) -> DeviceFault {
        DeviceFault::NoMemory
    }
}

impl From<AllocError> for DeviceFault {
    ghost use Rattle.std.specs.Prelude.{◌≡◌};
    ghost use Rattle.hall_script.specs.declared.device.DeviceFault.TheVariants.{NoMemory};

    ghost from_gives = { λ _ e. e ≡ NoMemory };

    fn from(refused: AllocError) -> DeviceFault {
        DeviceFault::from(NoMemory::from(refused))
    }
}

/// Reads a device to its end, if that comes within `limit` bytes.
///
/// Each read but the last gives a byte at least, so there are at most `limit` and one of them.
pub fn read_device<R: Source>(
    alloc: Global,
    source: &mut R,
    limit: usize,
) -> Result<Vec<u8>, DeviceFault>
    ensures whole { let device = used R.failures R.remaining source.old source.new in
        IfOk result (λ bytes. IsRead device limit bytes.items) }
    ensures fault { let device = used R.failures R.remaining source.old source.new in
        IfErr result (IsReadFault device limit) }
{
    let mut bytes = Vec::new(alloc);
    let mut buffer = [0u8; 1024];
    loop {
        let n = match source.read(&mut buffer) {
            Ok(n) => n,
            Err(_) => return Err(DeviceFault::Read),
        };
        if n == 0 {
            return Ok(bytes);
        }
        if n > limit - bytes.len() {
            return Err(DeviceFault::Read);
        }
        bytes.extend_from_slice(&buffer[..n])?;
    }
}
