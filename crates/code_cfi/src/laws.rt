//! Laws on the entries of a section.

ghost use Rattle.code_cfi.specs.Sections.{FindsFdeOfSection, FindsEachThatCovers, HasOneFdeAt};
ghost use Rattle.code_cfi.specs.Sections.{HasOneListOfCies, HasOneListOfFdes};

/// The bytes of a section determine its CIEs and its FDEs.
pub fn entries_are_determined()
    ensures cies { HasOneListOfCies }
    ensures fdes { HasOneListOfFdes }
{}

/// The FDE at an address of code, by the bytes of the section: what
/// [`FrameTable::find`](crate::FrameTable::find) returns for the entries of
/// [`FrameTable::new`](crate::FrameTable::new) is this FDE, and `None` if there is none. Of several that
/// describe the address it is the first one of those with the greatest first address. If no FDE starts at an
/// address that another one describes, each FDE is found at all addresses that it describes.
pub fn fde_at_address()
    ensures found { FindsFdeOfSection }
    ensures one { HasOneFdeAt }
    ensures covers { FindsEachThatCovers }
{}
