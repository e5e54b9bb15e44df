// The text of an option.
ghost use Rattle.std.specs.Prelude.{◌≡◌, IfOk};

use fuse_wire::NoMemory;
use std::alloc::Global;
use std::marker::Model;

/// The text of an option, in UTF-8. A contract sees its bytes.
#[derive(Debug, Drop)]
pub struct OptionText {
    text: String,
}

impl Model for OptionText {
    ghost use Rattle.std.specs.Prelude.{List, ℕ};
    ghost use Rattle.std.specs.String.{string_bytes};

    ghost Value = { List ℕ };

    ghost view = { λ t. string_bytes t.text };
}

/// Equal where the bytes are.
impl PartialEq for OptionText {
    ghost use Rattle.std.specs.Str.{bytes_eq};
    ghost use Rattle.std.proofs.Common.{rules};
    ghost use Rattle.std.specs.Cmp.Rules.{comparing};

    ghost eq = { bytes_eq };

    ghost laws = { Prim.search (comparing, rules) };

    fn eq(&self, other: &OptionText) -> bool {
        self.as_str() == other.as_str()
    }
}

impl Eq for OptionText {
    ghost use Rattle.std.proofs.Common.{rules};
    ghost use Rattle.std.specs.Cmp.Rules.{comparing};

    ghost laws = { Prim.search (comparing, rules) };
}

impl OptionText {
    /// A copy of this text. The error comes where there is no memory for it.
    pub fn new(alloc: Global, text: &str) -> Result<OptionText, NoMemory>
        ensures { IfOk result (λ copy. copy ≡ text.now) }
    {
        let text = String::from_str(alloc, text)?;
        Ok(OptionText { text })
    }

    /// The text.
    pub fn as_str(&self) -> &str
        ensures { result.now ≡ self.now }
    {
        self.text.as_str()
    }
}
