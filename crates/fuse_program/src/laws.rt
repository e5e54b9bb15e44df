//! Laws of the definitions. The function here does nothing: its contract is the law.
ghost use Rattle.std.specs.Prelude.{◌≡◌, ℕ, List};
ghost use Rattle.std.specs.List.Sorted.{IsPermutation};
ghost use Rattle.fuse_wire.specs.Sink.{Note};
ghost use Rattle.fuse_hello.specs.Generated.{stream};
ghost use Rattle.fuse_program.specs.Load.{AnsweredByTree, SameStream, Summarizes};
ghost use Rattle.fuse_program.specs.declared.arguments.LoadForm.{LoadForm};
ghost use Rattle.fuse_hello.specs.declared.summary.Summary.{Summary};

/// The replies and notes that the tree is owed to give for generated messages are the same but for their order,
/// whoever serves them. So what `load` counts is one summary for each seed and count, however many threads it takes.
pub fn the_line_is_one()
    ensures up_to_order { (seed count : ℕ) (frames others : List (List ℕ)) (notes noted : List Note)
        → AnsweredByTree (stream seed count) frames notes → AnsweredByTree (stream seed count) others noted
        → IsPermutation frames others × IsPermutation notes noted }
    ensures one_summary { (form other : LoadForm) (summary another : Summary) → SameStream form other
        → Summarizes form summary → Summarizes other another → summary ≡ another }
{}
