//! The buffer that messages are received in.
ghost use Rattle.std.specs.Prelude.{◌≡◌, IfOk, length};

use crate::NoMemory;
use crate::consts::BUFFER_SIZE;
use std::alloc::Global;

/// A receive buffer of zero bytes, as many as a source asks for: `BUFFER_SIZE`.
///
/// `NoMemory` comes where there is no room for them, and there is no other error.
pub fn receive_buffer(alloc: Global) -> Result<Vec<u8>, NoMemory>
    ensures { IfOk result (λ buffer. length buffer.items ≡ BUFFER_SIZE) }
{
    Ok(vec![in alloc; 0; BUFFER_SIZE]?)
}
