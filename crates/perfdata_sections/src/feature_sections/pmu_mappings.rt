//! The section PMU_MAPPINGS.
ghost use Rattle.std.specs.Prelude.{◌≡◌, ◌<◌, IfOk, OnErr, length, string_bytes};
ghost use Rattle.std.specs.Option.{option_map};
ghost use Rattle.perfdata_sources.specs.Source.{State, PausesOnlyOnError};
ghost use Rattle.perfdata_sections.specs.ParsedPart.{NoPauseIfOutOfMemory};
ghost use Rattle.perfdata_sections.specs.PmuMappings.{ReadsPmuUnit, ReadsPmuUnits};
ghost use Rattle.perfdata_sections.specs.steps.PmuMappings.{CollectsUnit, SortsUnits};
ghost use Rattle.perfdata_sections.specs.PmuMappings.{ReadsPmus, ParsesPmus};

use crate::feature_sections::header_string::HeaderString;
use indexmap::IndexMap;
use perfdata_base::raw::FileOrder;
use perfdata_base::source::{AppendError, Source, read_exact};
use std::alloc::{AllocError, Global};
use std::collections::BTreeMap;
use std::io;

/// The names of the performance monitoring units (PMUs) in ascending order of their numbers (section
/// PMU_MAPPINGS of perf).
#[derive(Drop)]
pub struct PmuMappings(pub IndexMap<u32, String>);

// Reads the number and name of a unit at the source's position.
fn read_pmu<R: Source, T: FileOrder>(
    alloc: Global,
    source: &mut R,
) -> Result<(u32, Option<String>), AppendError>
    ensures reads { ReadsPmuUnit T.number_of (R.state source.old) result (R.state source.new) }
    ensures pauses { PausesOnlyOnError (R.state source.old) result (R.state source.new) }
    ensures memory { NoPauseIfOutOfMemory (R.state source.old) result (R.state source.new) }
    ensures same_loan { R.loan source.new ≡ R.loan source.old }
{
    let mut number = [0u8; 4];
    read_exact(source, &mut number)?;
    let name = HeaderString::read_from::<R, T>(alloc, source)?;
    Ok((T::read_u32(&number), name))
}

// Sets the name of a unit's number. A unit without a name changes nothing.
fn insert_name(
    names: &mut BTreeMap<u32, String>,
    number: u32,
    name: Option<String>,
) -> Result<(), AppendError>
    ensures { CollectsUnit names.old (number, option_map string_bytes name) result names.new }
{
    match name {
        Some(name) => match names.insert(number, name) {
            Ok(_) => Ok(()),
            Err(_) => Err(AppendError::Memory),
        },
        None => Ok(()),
    }
}

// Reads `count` units at the source's position. A number with several names maps to the last of them.
fn read_pmus<R: Source, T: FileOrder>(
    alloc: Global,
    source: &mut R,
    count: u32,
) -> Result<BTreeMap<u32, String>, AppendError>
    ensures reads { ReadsPmuUnits T.number_of count (R.state source.old) result (R.state source.new) }
    ensures pauses { PausesOnlyOnError (R.state source.old) result (R.state source.new) }
    ensures memory { NoPauseIfOutOfMemory (R.state source.old) result (R.state source.new) }
    ensures same_loan { R.loan source.new ≡ R.loan source.old }
{
    let mut names = BTreeMap::new(alloc);
    'pmus: for _index in 0..count {
        let (number, name) = read_pmu::<R, T>(alloc, source)?;
        insert_name(&mut names, number, name)?;
    }
    Ok(names)
}

// Returns the names with their numbers as keys, in ascending order.
fn into_index_map(
    alloc: Global,
    names: BTreeMap<u32, String>,
) -> Result<IndexMap<u32, String>, AllocError>
    ensures sorts { IfOk result (λ m. SortsUnits names m) }
    ensures nonempty { OnErr result (0 < length names.entries) }
{
    let mut ordered = IndexMap::new(alloc);
    'names: for (number, name) in names {
        ordered.insert(number, name)?;
    }
    Ok(ordered)
}

impl PmuMappings {
    /// Reads the units at the position of a borrowed source.
    ///
    /// The section is a count of four bytes, and for each unit a number of four bytes and a string. A name
    /// that isn't UTF-8 is dropped. A number with several names maps to the last of them.
    ///
    /// Fails with an `UnexpectedEof` source error if the section is truncated, and with `AppendError::Memory`
    /// if memory runs out.
    pub fn read_from<R: Source, T: FileOrder>(
        alloc: Global,
        source: &mut R,
    ) -> Result<PmuMappings, AppendError>
        ensures reads { ReadsPmus T.number_of (R.state source.old) result (R.state source.new) }
        ensures pauses { PausesOnlyOnError (R.state source.old) result (R.state source.new) }
        ensures memory { NoPauseIfOutOfMemory (R.state source.old) result (R.state source.new) }
        ensures same_loan { R.loan source.new ≡ R.loan source.old }
    {
        let mut count = [0u8; 4];
        read_exact(source, &mut count)?;
        let names = read_pmus::<R, T>(alloc, source, T::read_u32(&count))?;
        Ok(PmuMappings(into_index_map(alloc, names)?))
    }

    /// Reads the units at the position of an owned source. See `read_from`.
    ///
    /// Fails with an `UnexpectedEof` error if the section is truncated, and with an `OutOfMemory` error if
    /// memory runs out.
    pub fn parse<R: Source + Drop, T: FileOrder>(
        alloc: Global,
        mut reader: R,
    ) -> io::Result<PmuMappings>
        ensures { (final : State) × ParsesPmus T.number_of (R.state reader) result final }
    {
        Ok(PmuMappings::read_from::<R, T>(alloc, &mut reader)?)
    }
}
