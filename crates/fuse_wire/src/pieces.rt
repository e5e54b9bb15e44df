//! Copying bytes to the front of a piece.
ghost use Rattle.std.specs.Prelude.{◌≡◌, drop, length, min, take};

/// Copies as many bytes as fit to the front of a piece, and says how many.
pub fn put_front(bytes: &[u8], piece: &mut [u8]) -> usize
    ensures count { result ≡ min (length bytes.now) (length piece.old) }
    ensures front { take result piece.new ≡ take result bytes.now }
    ensures rest { drop result piece.new ≡ drop result piece.old }
{
    let count = bytes.len().min(piece.len());
    piece[..count].copy_from_slice(&bytes[..count]);
    count
}
