// Why a message is no request.
use std::fmt;

/// Why a message is no request, or its operation can't be told.
#[derive(Clone, Copy, Debug, PartialEq, Eq)]
pub enum RequestError {
    /// The message has so many bytes, fewer than a header.
    ShortReadHeader(usize),
    /// The message has so many bytes, fewer than its header says, which is the second number.
    ShortRead(usize, usize),
    /// No operation has this opcode.
    UnknownOperation(u32),
    /// The header says fewer bytes than a header has, or the arguments are cut short.
    InsufficientData,
}

impl fmt::Display for RequestError {
    ghost use Rattle.std.specs.Prelude.{Some};
    ghost use Rattle.fuse_header.specs.ErrorText.{error_text};

    ghost output = { λ error. Some (error_text error) };

    fn fmt<W: fmt::Write>(&self, f: &mut fmt::Formatter<W>) -> fmt::Result {
        match self {
            RequestError::ShortReadHeader(length) => {
                write!(f, "Short read of FUSE request header ({length} < 40)")
            }
            RequestError::ShortRead(length, counted) => {
                write!(f, "Short read of FUSE request ({length} < {counted})")
            }
            RequestError::UnknownOperation(opcode) => write!(f, "Unknown FUSE opcode ({opcode})"),
            RequestError::InsufficientData => write!(f, "Insufficient argument data"),
        }
    }
}
