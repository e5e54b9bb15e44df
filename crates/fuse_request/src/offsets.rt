// Offsets and lengths in a file: numbers up to the last `i64`.
ghost use Rattle.std.specs.Prelude.{◌≡◌};
ghost use Rattle.fuse_request.specs.Fields.{file_offset, signed_offset};

use fuse_wire::Errno;

/// A number that is sent without a sign: `EINVAL` above the last `i64`.
pub(crate) fn file_offset(offset: u64) -> Result<u64, Errno>
    ensures { result ≡ file_offset offset }
{
    if offset > i64::MAX as u64 {
        return Err(Errno::EINVAL);
    }
    Ok(offset)
}

/// A number that is sent with a sign: `EINVAL` where it is negative.
pub(crate) fn signed_offset(offset: i64) -> Result<u64, Errno>
    ensures { result ≡ signed_offset offset }
{
    u64::try_from(offset).map_err(|_| Errno::EINVAL)
}
