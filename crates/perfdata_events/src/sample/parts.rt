//! The parts of samples whose size is in the record.
ghost use Rattle.std.specs.Prelude.{◌≡◌, ◌==◌, not, IfSome};
ghost use Rattle.perfdata_sources.specs.Raw.{bytes_of, IsSingle};
ghost use Rattle.perfdata_events.specs.Single.{KeepsSingle};
ghost use Rattle.perfdata_events.specs.SingleParts.{SingleBranches, SingleNumbers, SingleStack};
ghost use Rattle.perfdata_sources.specs.Endian.{number_in};
ghost use Rattle.perfdata_identifiers.specs.ParseInfo.{is_set};
ghost use Rattle.perfdata_events.specs.Format.{Decodes, optional};
ghost use Rattle.perfdata_events.specs.SampleFormat.{BRANCH_STACK, RAW, STACK_USER};
ghost use Rattle.perfdata_events.specs.Words.{u64s, u64s_in};
ghost use Rattle.std.specs.Option.{option_map};

pub use crate::fields::registers::{RegisterMasks, SampleRegisters};
use crate::fields::u64s::{RawDataU64, read_block};
use crate::fields::words::{read_u32, read_u64, read_u64_if, read_u64_list, read_u64s};
use crate::format::EventFormat;
use crate::record_masks::BranchFlags;
use crate::sample_bits::{BranchFields, SampleFields};
use bitflags::Flags;
use perfdata_base::raw::{Endianness, RawData};
use std::io::Result;

/// The last branches that the processor took.
#[derive(Clone, Copy, Debug)]
pub struct BranchStack<'a> {
    /// The hardware index of the first entry, if the attribute selects it.
    pub hw_index: Option<u64>,
    /// Three numbers for each branch: the address that it came from, its target and its flags.
    pub entries: RawDataU64<'a>,
    /// A number for each branch with the events that occurred before it, if the attribute selects them.
    pub counters: Option<RawDataU64<'a>>,
}

/// A branch that the processor took.
#[derive(Clone, Copy, Debug, PartialEq, Eq)]
pub struct BranchEntry {
    /// The address that it came from.
    pub from: u64,
    /// The address of its target.
    pub to: u64,
    /// Its flags, as bits, see [`BranchEntry::named_flags`].
    pub flags: u64,
}

impl BranchEntry {
    ghost use Rattle.perfdata_events.specs.BranchFlags.{branch_flags_in};

    /// Returns its flags by their names. `endian` is the byte order of the record.
    pub fn named_flags(&self, endian: Endianness) -> BranchFlags
        ensures { result.0 ≡ branch_flags_in endian self.now.flags }
    {
        BranchFlags::new(self.flags, endian)
    }
}

/// A copy of the start of a program's stack.
#[derive(Clone, Copy, Debug)]
pub struct UserStack<'a> {
    /// The bytes.
    pub bytes: RawData<'a>,
    /// The number of these bytes that the kernel could copy; `None` if there are none.
    pub dynamic_size: Option<u64>,
}

// Removes `count` numbers if they are there.
fn read_u64_list_if<'a>(
    endian: Endianness,
    fields: &mut RawData<'a>,
    present: bool,
    count: u64,
) -> Result<Option<RawDataU64<'a>>>
    ensures decodes { Decodes (optional present (u64s (number_in endian) count)) (option_map u64s_in)
        (bytes_of fields.old) result (bytes_of fields.new) }
    ensures single { KeepsSingle (λ v. IfSome v SingleNumbers) fields.old result fields.new }
{
    if !present {
        return Ok(None);
    }
    read_u64_list(endian, fields, count).map(Some)
}

impl<'a> BranchStack<'a> {
    ghost use Rattle.std.specs.Prelude.{◌≤◌, ◌<◌, IfNone};
    ghost use Rattle.perfdata_events.specs.Sample.{branch_stack, branches_of, branch_count, branch_at};

    /// Returns the number of branches.
    pub fn len(&self) -> usize
        ensures { result ≡ branch_count self.now }
    {
        self.entries.len() / 3
    }

    /// Returns the branch at an index, the latest first, or `None` if there are no more branches than
    /// `index`.
    pub fn get(&self, index: usize) -> Option<BranchEntry>
        ensures none { IfNone result (branch_count self.now ≤ index) }
        ensures within { IfSome result (λ _. index < branch_count self.now) }
        ensures branch { IfSome result (λ branch. branch ≡ branch_at self.now index) }
    {
        if index >= self.entries.len() / 3 {
            return None;
        }
        let start = 3 * index;
        Some(BranchEntry {
            from: self.entries.get(start)?,
            to: self.entries.get(start + 1)?,
            flags: self.entries.get(start + 2)?,
        })
    }

    // Removes a branch stack.
    pub(crate) fn parse(
        endian: Endianness,
        branch_sample_type: BranchFields,
        fields: &mut RawData<'a>,
    ) -> Result<BranchStack<'a>>
        ensures decodes { Decodes (branch_stack (number_in endian) branch_sample_type.0) branches_of
            (bytes_of fields.old) result (bytes_of fields.new) }
        ensures single { KeepsSingle SingleBranches fields.old result fields.new }
    {
        let count = read_u64(endian, fields)?;
        let hw_index = read_u64_if(
            endian,
            fields,
            branch_sample_type.contains(BranchFields::HW_INDEX),
        )?;
        let entries = read_u64s(endian, fields, count, 3)?;
        let has_counters = branch_sample_type.contains(BranchFields::COUNTERS);
        let counters = read_u64_list_if(endian, fields, has_counters, count)?;
        Ok(BranchStack {
            hw_index,
            entries,
            counters,
        })
    }

    // The same if samples of the format have one.
    #[inline(always)]
    pub(crate) fn parse_if(
        format: &EventFormat,
        fields: &mut RawData<'a>,
    ) -> Result<Option<BranchStack<'a>>>
        ensures decodes { Decodes (optional (is_set format.now.sample_format.0 BRANCH_STACK)
            (branch_stack (number_in format.now.endian) format.now.branch_sample_type.0))
            (option_map branches_of) (bytes_of fields.old) result (bytes_of fields.new) }
        ensures single { KeepsSingle (λ v. IfSome v SingleBranches) fields.old result fields.new }
    {
        if !format.sample_format.contains(SampleFields::BRANCH_STACK) {
            return Ok(None);
        }
        BranchStack::parse(format.endian, format.branch_sample_type, fields).map(Some)
    }
}

impl<'a> UserStack<'a> {
    ghost use Rattle.perfdata_events.specs.Sample.{user_stack, stack_of};

    // Removes a copy of a stack.
    pub(crate) fn parse(endian: Endianness, fields: &mut RawData<'a>) -> Result<UserStack<'a>>
        ensures decodes { Decodes (user_stack (number_in endian)) stack_of (bytes_of fields.old) result
            (bytes_of fields.new) }
        ensures single { KeepsSingle SingleStack fields.old result fields.new }
    {
        let size = read_u64(endian, fields)?;
        let bytes = read_block(fields, size as usize)?;
        let dynamic_size = read_u64_if(endian, fields, size != 0)?;
        Ok(UserStack {
            bytes,
            dynamic_size,
        })
    }

    // The same if samples of the format have one.
    #[inline(always)]
    pub(crate) fn parse_if(
        format: &EventFormat,
        fields: &mut RawData<'a>,
    ) -> Result<Option<UserStack<'a>>>
        ensures decodes { Decodes (optional (is_set format.now.sample_format.0 STACK_USER)
            (user_stack (number_in format.now.endian))) (option_map stack_of) (bytes_of fields.old) result
            (bytes_of fields.new) }
        ensures single { KeepsSingle (λ v. IfSome v SingleStack) fields.old result fields.new }
    {
        if !format.sample_format.contains(SampleFields::STACK_USER) {
            return Ok(None);
        }
        UserStack::parse(format.endian, fields).map(Some)
    }
}

ghost use Rattle.perfdata_events.specs.Sample.{raw_data};

// Removes raw data, whose size is four bytes before it.
pub(crate) fn read_raw_data<'a>(endian: Endianness, fields: &mut RawData<'a>) -> Result<RawData<'a>>
    ensures decodes { Decodes (raw_data (number_in endian)) bytes_of (bytes_of fields.old) result
        (bytes_of fields.new) }
    ensures single { KeepsSingle IsSingle fields.old result fields.new }
{
    let size = read_u32(endian, fields)?;
    read_block(fields, size as usize)
}

// Removes raw data if samples of the format have some.
#[inline(always)]
pub(crate) fn read_raw_data_if<'a>(
    format: &EventFormat,
    fields: &mut RawData<'a>,
) -> Result<Option<RawData<'a>>>
    ensures decodes { Decodes (optional (is_set format.now.sample_format.0 RAW)
        (raw_data (number_in format.now.endian))) (option_map bytes_of) (bytes_of fields.old) result
        (bytes_of fields.new) }
    ensures single { KeepsSingle (λ v. IfSome v IsSingle) fields.old result fields.new }
{
    if !format.sample_format.contains(SampleFields::RAW) {
        return Ok(None);
    }
    read_raw_data(format.endian, fields).map(Some)
}
