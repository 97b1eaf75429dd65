//! The addresses of procedure linkage tables.

ghost use Rattle.std.specs.Prelude.{◌≡◌, IfOk, OnOk};
ghost use Rattle.code_symbols.specs.PltRanges.{range_of};

use crate::elf::ElfFile;
use crate::elf::header::Section;
use perfdata_base::source::PlacedSource;
use std::alloc::{AllocError, Global};

/// The addresses of a section with entries of the procedure linkage table.
#[derive(Clone, Copy, Debug, PartialEq, Eq)]
pub struct PltRange {
    /// The address of its first byte.
    pub address: u64,
    /// The size in bytes.
    pub size: u64,
    /// Whether it is `.plt`, which starts with the code that its entries share.
    pub is_plt: bool,
}

fn plt_range(section: Section, is_plt: bool) -> PltRange
    ensures { result ≡ range_of is_plt section }
{
    PltRange {
        address: section.address,
        size: section.size,
        is_plt,
    }
}

impl<R: PlacedSource + Drop> ElfFile<R> {
    ghost use Rattle.code_symbols.specs.ElfFiles.{section_names_of, sections_of};
    ghost use Rattle.code_symbols.specs.PltRanges.{AddsRange, ArePltRanges};

    /// Returns the addresses of the code in `.plt`, `.plt.sec`, `.plt.got` and `.iplt`, in this order. Of
    /// several sections with a name it is the first with contents.
    pub fn plt_ranges(&self, alloc: Global) -> Result<Vec<PltRange>, AllocError>
        ensures { IfOk result (λ ranges. ArePltRanges (section_names_of self.now) (sections_of self.now)
            ranges.items) }
    {
        let mut ranges = Vec::new(alloc);
        self.add_range(b".plt", true, &mut ranges)?;
        self.add_range(b".plt.sec", false, &mut ranges)?;
        self.add_range(b".plt.got", false, &mut ranges)?;
        self.add_range(b".iplt", false, &mut ranges)?;
        Ok(ranges)
    }

    // Adds the addresses of the code of a name, if there is such code.
    fn add_range(
        &self,
        name: &[u8],
        is_plt: bool,
        ranges: &mut Vec<PltRange>,
    ) -> Result<(), AllocError>
        ensures { OnOk result (AddsRange (section_names_of self.now) (sections_of self.now) name.now is_plt
            ranges.old.items ranges.new.items) }
    {
        if let Some(section) = self.code_of_name(name) {
            ranges.push(plt_range(section, is_plt))?;
        }
        Ok(())
    }
}
