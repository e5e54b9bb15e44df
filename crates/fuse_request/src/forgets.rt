// Lookups of several inodes that are given back.
ghost use Rattle.std.specs.Prelude.{◌≡◌, ◌==◌, length, option_map, slice_get};
ghost use Rattle.fuse_request.specs.Forgets.{row_bytes, row_of, rows_of};

use fuse_wire::{INodeNo, u64_at};
use std::marker::Model;

/// How long a row is: `struct fuse_forget_one`.
const ROW_SIZE: usize = 16;

/// One inode of which lookups are given back.
#[derive(Clone, Copy, Debug, PartialEq, Eq)]
pub struct ForgetOne {
    nodeid: INodeNo,
    nlookup: u64,
}

impl ForgetOne {
    /// The inode.
    pub fn nodeid(&self) -> INodeNo
        ensures { result.0 ≡ (row_of self.now).0 }
    {
        self.nodeid
    }

    /// How many lookups are given back.
    pub fn nlookup(&self) -> u64
        ensures { result ≡ (row_of self.now).1 }
    {
        self.nlookup
    }
}

/// Inodes of which lookups are given back.
#[derive(Clone, Copy, Debug, PartialEq, Eq)]
pub struct ForgetList<'a> {
    pub(crate) rows: &'a [u8],
}

impl<'a> ForgetList<'a> {
    /// How many inodes there are.
    #[tactic(auto, using(crate::proofs::Rows::rows_in_length))]
    pub fn len(&self) -> usize
        ensures { result ≡ length (rows_of self.now) }
    {
        self.rows.len() / ROW_SIZE
    }

    /// Whether there is none.
    #[tactic(auto, using(crate::proofs::Rows::rows_in_length))]
    pub fn is_empty(&self) -> bool
        ensures { result ≡ (length (rows_of self.now) == 0) }
    {
        self.len() == 0
    }

    /// The inode at this place. None from `len` on.
    #[tactic(auto, using(crate::proofs::Rows::rows_in_at, crate::proofs::Rows::rows_in_beyond))]
    pub fn get(&self, place: usize) -> Option<ForgetOne>
        ensures { option_map row_of result ≡ slice_get (rows_of self.now) place }
    {
        if place >= self.rows.len() / ROW_SIZE {
            return None;
        }
        let at = place * ROW_SIZE;
        Some(ForgetOne {
            nodeid: INodeNo(u64_at(self.rows, at)),
            nlookup: u64_at(self.rows, at + 8),
        })
    }
}

/// BATCH_FORGET: the kernel gives back some of its lookups of several inodes. It waits for no reply.
/// A contract sees the bytes of the rows.
#[derive(Drop)]
pub struct BatchForget<'a> {
    /// The rows, 16 bytes each.
    pub(crate) rows: &'a [u8],
}

impl<'a> Model for BatchForget<'a> {
    ghost use Rattle.std.specs.Prelude.{ℕ, List};

    ghost Value = { List ℕ };

    ghost view = { λ a. a.rows.now };
}

impl<'a> BatchForget<'a> {
    /// The inodes.
    pub fn nodes(&self) -> ForgetList<'a>
        ensures { row_bytes result ≡ self.now }
    {
        ForgetList { rows: self.rows }
    }
}
