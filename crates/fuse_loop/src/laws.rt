//! A law of a number: a function that does nothing, whose contract is the law.
ghost use Rattle.std.specs.Prelude.{◌≡◌};
ghost use Rattle.fuse_loop.specs.declared.request_job.TheConstants.{INLINE_MESSAGE};

/// A message of up to 128 bytes is handed to another thread without memory.
pub fn messages_of_128_bytes_are_held_inline()
    ensures { INLINE_MESSAGE ≡ 128 }
{}
