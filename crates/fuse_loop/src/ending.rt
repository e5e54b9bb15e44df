// The mark of a run's end, as whoever runs it keeps it.
ghost use Rattle.std.specs.Prelude.{◌≡◌, ◌-◌, ◌^◌, None, Some, min, IfOk};
ghost use Rattle.fuse_reply.specs.EndMark.{end_mark};

use fuse_reply::{EndMark, Seal};
use fuse_wire::NoMemory;
use std::alloc::Global;
use std::marker::Model;

/// The mark of a run's end, with its Seal until it is set. A contract sees the mark.
#[derive(Drop)]
pub struct Ending {
    mark: EndMark,
    seal: Option<Seal>,
}

impl Model for Ending {
    ghost use Rattle.std.specs.Prelude.{◌≡◌, ◌≢◌, None, MatchOption};
    ghost use Rattle.fuse_reply.specs.EndMark.{EndMarkSeen};

    ghost Value = { EndMarkSeen };

    ghost view = { λ e. e.mark };

    ghost invariant = { λ e. MatchOption e.seal (e.mark.set ≢ None) (λ seal. (seal ≡ e.mark.name)
        × (e.mark.set ≡ None)) };
}

impl Ending {
    /// A mark that is not set. `NoMemory` where there is no memory for it.
    pub fn new(alloc: Global) -> Result<Ending, NoMemory>
        ensures { IfOk result (λ made. made ≡ end_mark made.name None None) }
    {
        let (mark, seal) = EndMark::new(alloc)?;
        Ok(Ending {
            mark,
            seal: Some(seal),
        })
    }

    /// A share of the mark. `NoMemory` only where the count of its shares is at its end.
    pub fn share(&mut self) -> Result<EndMark, NoMemory>
        ensures same { self.new ≡ self.old }
        ensures share { IfOk result (λ share. share ≡ end_mark self.old.name self.old.known None) }
    {
        self.mark.share()
    }

    /// Sets the mark, to the number of messages that were taken, of which the last two values of a u64 count as one.
    pub fn set(&mut self, taken: u64)
        requires { self.old.set ≡ None }
        ensures { self.new ≡ end_mark self.old.name self.old.known (Some (min taken (2 ^ 64 - 2))) }
    {
        let Some(seal) = self.seal.take() else {
            unreachable!()
        };
        self.mark.set(seal, taken);
    }
}
