//! Laws of the definitions. Each function here does nothing: its contract is the law, which holds of all its arguments.
ghost use Rattle.std.specs.Prelude.{◌≡◌, ◌↔◌, IsTrue};
ghost use Rattle.fuse_wire.specs.Numbered.{SaysSame};
ghost use Rattle.fuse_request.specs.After.{UnreadAfter};
ghost use Rattle.fuse_request.specs.Fields.{same_size};
ghost use Rattle.fuse_request.specs.Forgets.{row_bytes};
ghost use Rattle.fuse_request.specs.declared.forgets.ForgetList.{ForgetList};
ghost use Rattle.fuse_request.specs.declared.places.FilenameInDir.{FilenameInDir};
ghost use Rattle.fuse_request.specs.declared.xattrs.GetXAttrSizeEnum.{GetXAttrSizeEnum};

use crate::{
    CopyFileRangeFile, FilenameInDir, ForgetList, ForgetOne, GetXAttrSize, GetXAttrSizeEnum, Lock,
};

/// Parts of operations are equal where they are the same, and what borrows bytes where those are the same.
pub fn equal_where_they_are_the_same()
    ensures locks { SaysSame ⟦<Lock as PartialEq>⟧.eq }
    ensures places_in_files { SaysSame ⟦<CopyFileRangeFile as PartialEq>⟧.eq }
    ensures sizes_alone { SaysSame ⟦<GetXAttrSize as PartialEq>⟧.eq }
    ensures sizes { (x y : GetXAttrSizeEnum) → ⟦<GetXAttrSizeEnum as PartialEq>⟧.eq x y ≡ same_size x y }
    ensures forgets { SaysSame ⟦<ForgetOne as PartialEq>⟧.eq }
    ensures forget_lists { (x y : ForgetList) →
        IsTrue (⟦<ForgetList<'static> as PartialEq>⟧.eq x y) ↔ (row_bytes x ≡ row_bytes y) }
    ensures places { (x y : FilenameInDir) →
        IsTrue (⟦<FilenameInDir<'static> as PartialEq>⟧.eq x y) ↔ ((x.dir ≡ y.dir) × (x.name.now ≡ y.name.now)) }
{}

/// What stands after the bytes that a good header counts changes neither the header, nor the body, nor what is asked.
pub fn bytes_after_are_not_read(message: &[u8], others: &[u8])
    ensures { UnreadAfter message.now others.now }
{}
