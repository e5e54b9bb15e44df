// What serving a stream came to, in one line.
ghost use Rattle.fuse_hello.specs.Store.{line};

use std::fmt;

/// How much was taken and given. Notices are left out.
#[derive(Clone, Copy, Debug, PartialEq, Eq)]
pub struct Summary {
    /// The messages taken.
    pub messages: u64,
    /// The reply frames given.
    pub frames: usize,
    /// The notes given in place of frames.
    pub notes: usize,
    /// The reply frames whose status is negative.
    pub errors: usize,
    /// The bytes of all reply frames.
    pub bytes: usize,
}

/// The line, with its line feed.
impl fmt::Display for Summary {
    ghost use Rattle.std.specs.Prelude.{Some};
    ghost use Rattle.fuse_hello.specs.Store.{line};

    ghost output = { λ summary. Some (line summary) };

    fn fmt<W: fmt::Write>(&self, f: &mut fmt::Formatter<W>) -> fmt::Result {
        let Summary {
            messages,
            frames,
            notes,
            errors,
            bytes,
        } = *self;
        write!(
            f,
            "messages {messages} frames {frames} notes {notes} errors {errors} bytes {bytes}\n"
        )
    }
}
