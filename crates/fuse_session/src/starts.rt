// The starts of a spawner: how many there were, and which are refused.
ghost use Rattle.std.specs.Prelude.{◌≡◌, [], option_map, unwrap_or};
ghost use Rattle.fuse_wire.specs.Calls.{is_listed, next_call};
ghost use Rattle.fuse_wire.specs.Faults.{counted};

use std::marker::Model;

/// The starts of a spawner. They are numbered from 1, those that are refused too, and each after the last number of a
/// u64 has that one.
#[derive(Drop)]
pub(crate) struct Starts {
    listed: Option<Vec<u64>>,
    starts: u64,
    refused: u64,
}

impl Model for Starts {
    ghost use Rattle.std.specs.Prelude.{[], option_map, unwrap_or};
    ghost use Rattle.fuse_session.specs.Starts.{StartsSeen};

    ghost Value = { StartsSeen };

    ghost view = { λ s. record {
      listed = unwrap_or (option_map (λ v. v.items) s.listed) [];
      starts = s.starts;
      refused = s.refused;
    } };
}

impl Starts {
    /// There was none yet. Those whose numbers are listed are to be refused.
    pub(crate) fn new(listed: Option<Vec<u64>>) -> Starts
        ensures { result ≡ record {
          listed = unwrap_or (option_map (λ v. v.items) listed) [];
          starts = 0;
          refused = 0;
        } }
    {
        Starts {
            listed,
            starts: 0,
            refused: 0,
        }
    }

    /// Counts one more, and says whether it is listed.
    pub(crate) fn next_is_listed(&mut self) -> bool
        ensures listed { result ≡ is_listed self.old.listed self.old.starts }
        ensures counted { self.new ≡ record self.old { starts = next_call self.old.starts } }
    {
        self.starts = self.starts.saturating_add(1);
        match &self.listed {
            Some(listed) => listed.contains(&self.starts),
            None => false,
        }
    }

    /// Counts that one was refused.
    pub(crate) fn count_refusal(&mut self)
        ensures { self.new ≡ record self.old { refused = counted self.old.refused 1 } }
    {
        self.refused = self.refused.saturating_add(1);
    }
}
