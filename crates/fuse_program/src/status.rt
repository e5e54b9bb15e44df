// The exit status of a session's outcome.
ghost use Rattle.std.specs.Prelude.{◌≡◌};
ghost use Rattle.fuse_program.specs.Status.{IsStatus, failure_status as status_of_failure};

use fuse_session::SessionError;

/// The status of an outcome, where so many frames were lost, and `broken` says that a write failed: of Ok 0, or 8
/// where a frame was lost or a write failed; of an error that of `failure_status`.
pub fn status_of(outcome: &Result<(), SessionError>, lost: u64, broken: bool) -> u8
    ensures { IsStatus result outcome.now lost broken }
{
    match outcome {
        Ok(()) if lost > 0 || broken => 8,
        Ok(()) => 0,
        Err(error) => failure_status(error),
    }
}

/// The status of an error: 3 for `NotConnected`, 4 for `InvalidData` and `Init`, 5 for `Unsupported`, 7 for `Receive`,
/// 9 for `Memory` and for options that are refused, 10 for `Threads`.
pub fn failure_status(error: &SessionError) -> u8
    ensures { result ≡ status_of_failure error.now }
{
    match error {
        SessionError::NotConnected => 3,
        // The tree never refuses an INIT.
        SessionError::InvalidData(_) | SessionError::Init(_) => 4,
        SessionError::Unsupported(_) => 5,
        SessionError::Receive => 7,
        // The program lists no options, so that they are never refused.
        SessionError::Conflict { .. }
        | SessionError::AutoUnmount
        | SessionError::CloneFd
        | SessionError::Memory => 9,
        SessionError::Threads => 10,
    }
}
