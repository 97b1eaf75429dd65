//! The fields of a sample that `Sample` doesn't have.
ghost use Rattle.std.specs.Prelude.{◌≡◌, ◌<◌, ◌≤◌, ◌^◌, IfErr, IfNone, IfOk, IfSome, length};
ghost use Rattle.perfdata_arrays.specs.Details.{AreOffsets, FieldsTake, HasTruncatedPart, IsDetails};
ghost use Rattle.perfdata_arrays.specs.Details.{IsDetailsError, IsTruncatedIn, branch_range, byte_range};
ghost use Rattle.perfdata_arrays.specs.Details.{ReadsDetails, details_of, format_of_attr};
ghost use Rattle.perfdata_arrays.specs.Details.{register_range, stack_range, with_fields};

use crate::attrs::Attr;
use crate::samples::body::{BodyError, WORD_BITS};
use crate::status::Status;
use perfdata_base::raw::{Endianness, RawData};
use perfdata_events::format::EventFormat;
use perfdata_events::sample::SampleRecord;
use perfdata_events::sample_bits::{BranchFields, ReadFields, SampleFields};
use perfdata_events::sample_parts::{BranchStack, SampleRegisters, UserStack};

// The bits of the fields before the raw data.
const BEFORE_RAW: u64 = WORD_BITS | SampleFields::READ.0 | SampleFields::CALLCHAIN.0;

// The bits of the fields before the branch stack.
const BEFORE_BRANCHES: u64 = BEFORE_RAW | SampleFields::RAW.0;

// The bits of the fields before the user registers.
const BEFORE_USER_REGISTERS: u64 = BEFORE_BRANCHES | SampleFields::BRANCH_STACK.0;

// The bits of the fields before the user stack.
const BEFORE_USER_STACK: u64 = BEFORE_USER_REGISTERS | SampleFields::REGS_USER.0;

// The bits of the fields before the registers at the interrupt.
const BEFORE_INTERRUPT_REGISTERS: u64 = BEFORE_USER_STACK
    | SampleFields::STACK_USER.0
    | SampleFields::WEIGHT.0
    | SampleFields::WEIGHT_STRUCT.0
    | SampleFields::DATA_SRC.0
    | SampleFields::TRANSACTION.0;

// The bits of the fields before the aux data.
const BEFORE_AUX: u64 = BEFORE_INTERRUPT_REGISTERS
    | SampleFields::REGS_INTR.0
    | SampleFields::PHYS_ADDR.0
    | SampleFields::CGROUP.0
    | SampleFields::DATA_PAGE_SIZE.0
    | SampleFields::CODE_PAGE_SIZE.0;

/// The fields of a sample that `Sample` doesn't have, as plain numbers. A field that it doesn't have is 0.
/// Offsets are counted from the start of the body in bytes.
#[repr(C)]
#[derive(Clone, Copy, Debug, Default, PartialEq, Eq)]
pub struct SampleDetails {
    /// The identifier of the event itself, also if another task inherited it.
    pub stream_id: u64,
    /// The weight; with `WEIGHT_STRUCT` three numbers: bits 0 to 31, 32 to 47 and 48 to 63.
    pub weight: u64,
    /// Where the data came from, as bits.
    pub data_source: u64,
    /// Why a transaction was aborted, as bits.
    pub transaction: u64,
    /// The physical address of the data.
    pub physical_address: u64,
    /// The id of the control group.
    pub cgroup: u64,
    /// The size of the page of the data, in bytes.
    pub data_page_size: u64,
    /// The size of the page of the instruction, in bytes.
    pub code_page_size: u64,
    /// The offset of the raw data.
    pub raw_offset: u64,
    /// The size of the raw data in bytes.
    pub raw_size: u64,
    /// The offset of the branches, three words each: from, to and flags. Their counters follow, if the
    /// attribute selects them.
    pub branches_offset: u64,
    /// The number of branches.
    pub branches_count: u64,
    /// The hardware index of the first branch.
    pub branches_hw_index: u64,
    /// The kind of the program: 0 none, 1 of 32 bits, 2 of 64 bits.
    pub user_abi: u64,
    /// The offset of the user registers, a word each.
    pub user_registers_offset: u64,
    /// The number of user registers.
    pub user_registers_count: u64,
    /// The offset of the copy of the user stack.
    pub user_stack_offset: u64,
    /// The size of the copy of the user stack in bytes.
    pub user_stack_size: u64,
    /// The number of bytes of it that the kernel could copy.
    pub user_stack_dynamic_size: u64,
    /// The kind of the program at the interrupt.
    pub interrupt_abi: u64,
    /// The offset of the registers at the interrupt, a word each.
    pub interrupt_registers_offset: u64,
    /// The number of registers at the interrupt.
    pub interrupt_registers_count: u64,
    /// The offset of the aux data.
    pub aux_offset: u64,
    /// The size of the aux data in bytes.
    pub aux_size: u64,
}

const _: () = prove!(size_of::<SampleDetails>() == 192);

// Where the parts of a sample start, counted from the start of its body. A part may not be there.
#[derive(Clone, Copy)]
struct PartOffsets {
    raw: u64,
    branches: u64,
    user_registers: u64,
    user_stack: u64,
    interrupt_registers: u64,
    aux: u64,
}

// The format without the fields of other bits.
fn with_fields(format: &EventFormat, bits: u64) -> EventFormat
    ensures { result ≡ with_fields format.now bits }
{
    EventFormat {
        endian: format.endian,
        sample_format: SampleFields(format.sample_format.0 & bits),
        read_format: format.read_format,
        branch_sample_type: format.branch_sample_type,
        sample_regs_user: format.sample_regs_user,
        sample_regs_intr: format.sample_regs_intr,
        sample_id_all: format.sample_id_all,
    }
}

// The size of the fields with these bits at the start of a body. `None` if they are truncated.
fn fields_size(format: &EventFormat, bits: u64, body: &[u8]) -> Option<u64>
    ensures some { IfSome result (FieldsTake format.now bits body.now) }
    ensures none { IfNone result (IsTruncatedIn (with_fields format.now bits) body.now) }
    ensures within { IfSome result (λ size. size ≤ length body.now) }
{
    let mut fields = RawData::Single(body);
    match SampleRecord::parse(&with_fields(format, bits), &mut fields) {
        Ok(_sample) => Some(body.len().saturating_sub(fields.len()) as u64),
        Err(_) => None,
    }
}

// Where the parts start. `None` if a part is truncated.
fn part_offsets(format: &EventFormat, body: &[u8]) -> Option<PartOffsets>
    ensures some { IfSome result (AreOffsets format.now body.now) }
    ensures none { IfNone result (HasTruncatedPart format.now body.now) }
{
    Some(PartOffsets {
        raw: fields_size(format, BEFORE_RAW, body)?,
        branches: fields_size(format, BEFORE_BRANCHES, body)?,
        user_registers: fields_size(format, BEFORE_USER_REGISTERS, body)?,
        user_stack: fields_size(format, BEFORE_USER_STACK, body)?,
        interrupt_registers: fields_size(format, BEFORE_INTERRUPT_REGISTERS, body)?,
        aux: fields_size(format, BEFORE_AUX, body)?,
    })
}

// Where bytes are, which start at an offset.
#[derive(Clone, Copy)]
struct ByteRange {
    offset: u64,
    size: u64,
}

fn byte_range(bytes: Option<RawData<'_>>, offset: u64) -> ByteRange
    ensures { result ≡ byte_range bytes.entry offset }
{
    match bytes {
        Some(bytes) => ByteRange {
            offset,
            size: bytes.len() as u64,
        },
        None => ByteRange { offset: 0, size: 0 },
    }
}

// Where branches are, which start at an offset with their number.
#[derive(Clone, Copy)]
struct BranchRange {
    offset: u64,
    count: u64,
    hw_index: u64,
}

fn branch_range(branches: &Option<BranchStack<'_>>, offset: u64) -> BranchRange
    requires { offset < 2 ^ 63 }
    ensures { result ≡ branch_range branches.now offset }
{
    match branches {
        Some(stack) => BranchRange {
            offset: if stack.hw_index.is_some() {
                offset + 16
            } else {
                offset + 8
            },
            count: stack.len() as u64,
            hw_index: stack.hw_index.unwrap_or(0),
        },
        None => BranchRange {
            offset: 0,
            count: 0,
            hw_index: 0,
        },
    }
}

// Where registers are, which start at an offset with their ABI.
#[derive(Clone, Copy)]
struct RegisterRange {
    abi: u64,
    offset: u64,
    count: u64,
}

fn register_range(registers: &Option<SampleRegisters<'_>>, offset: u64) -> RegisterRange
    requires { offset < 2 ^ 63 }
    ensures { result ≡ register_range registers.now offset }
{
    match registers {
        Some(registers) => RegisterRange {
            abi: registers.abi,
            offset: offset + 8,
            count: registers.values.len() as u64,
        },
        None => RegisterRange {
            abi: 0,
            offset: 0,
            count: 0,
        },
    }
}

// Where a copy of a stack is, which starts at an offset with its size.
#[derive(Clone, Copy)]
struct StackRange {
    offset: u64,
    size: u64,
    dynamic_size: u64,
}

fn stack_range(stack: &Option<UserStack<'_>>, offset: u64) -> StackRange
    requires { offset < 2 ^ 63 }
    ensures { result ≡ stack_range stack.now offset }
{
    match stack {
        Some(stack) => StackRange {
            offset: offset + 8,
            size: stack.bytes.len() as u64,
            dynamic_size: stack.dynamic_size.unwrap_or(0),
        },
        None => StackRange {
            offset: 0,
            size: 0,
            dynamic_size: 0,
        },
    }
}

// The details of a parsed sample, whose parts start at these offsets.
fn parsed_details(offsets: PartOffsets, sample: &SampleRecord<'_>) -> SampleDetails
    requires raw { offsets.raw < 2 ^ 63 }
    requires branches { offsets.branches < 2 ^ 63 }
    requires user_registers { offsets.user_registers < 2 ^ 63 }
    requires user_stack { offsets.user_stack < 2 ^ 63 }
    requires interrupt_registers { offsets.interrupt_registers < 2 ^ 63 }
    requires aux { offsets.aux < 2 ^ 63 }
    ensures { result ≡ details_of offsets sample.now }
{
    let raw = byte_range(sample.raw, offsets.raw + 4);
    let branches = branch_range(&sample.branch_stack, offsets.branches);
    let user = register_range(&sample.user_registers, offsets.user_registers);
    let stack = stack_range(&sample.user_stack, offsets.user_stack);
    let interrupt = register_range(&sample.interrupt_registers, offsets.interrupt_registers);
    let aux = byte_range(sample.aux_data, offsets.aux + 8);
    SampleDetails {
        stream_id: sample.stream_id.unwrap_or(0),
        weight: sample.weight.unwrap_or(0),
        data_source: sample.data_source.unwrap_or(0),
        transaction: sample.transaction.unwrap_or(0),
        physical_address: sample.physical_address.unwrap_or(0),
        cgroup: sample.cgroup.unwrap_or(0),
        data_page_size: sample.data_page_size.unwrap_or(0),
        code_page_size: sample.code_page_size.unwrap_or(0),
        raw_offset: raw.offset,
        raw_size: raw.size,
        branches_offset: branches.offset,
        branches_count: branches.count,
        branches_hw_index: branches.hw_index,
        user_abi: user.abi,
        user_registers_offset: user.offset,
        user_registers_count: user.count,
        user_stack_offset: stack.offset,
        user_stack_size: stack.size,
        user_stack_dynamic_size: stack.dynamic_size,
        interrupt_abi: interrupt.abi,
        interrupt_registers_offset: interrupt.offset,
        interrupt_registers_count: interrupt.count,
        aux_offset: aux.offset,
        aux_size: aux.size,
    }
}

/// Decodes the fields of a sample with this body, by the format of its attribute.
///
/// Fails with `UnknownFields` if the format has fields that aren't known, and with `Truncated` if the body
/// ends inside a field.
pub fn sample_details(format: &EventFormat, body: &[u8]) -> Result<SampleDetails, BodyError>
    ensures ok { IfOk result (IsDetails format.now body.now) }
    ensures error { IfErr result (IsDetailsError format.now body.now) }
{
    if !format.has_known_fields() {
        return Err(BodyError::UnknownFields);
    }
    let mut fields = RawData::Single(body);
    let Ok(sample) = SampleRecord::parse(format, &mut fields) else {
        return Err(BodyError::Truncated);
    };
    match part_offsets(format, body) {
        Some(offsets) => Ok(parsed_details(offsets, &sample)),
        None => Err(BodyError::Truncated),
    }
}

// The format of the samples of an attribute.
fn attr_format(endian: Endianness, attr: &Attr) -> EventFormat
    ensures { result ≡ format_of_attr endian attr.now }
{
    EventFormat {
        endian,
        sample_format: SampleFields(attr.sample_type),
        read_format: ReadFields(attr.read_format),
        branch_sample_type: BranchFields(attr.branch_sample_type),
        sample_regs_user: attr.sample_regs_user,
        sample_regs_intr: attr.sample_regs_intr,
        sample_id_all: false,
    }
}

/// Decodes the fields of a sample with this body, by its attribute.
///
/// After an error `details` is unchanged: `Truncated` if the body ends inside a field, `Other` if the
/// attribute selects a field that isn't known.
pub fn read_details(
    endian: Endianness,
    attr: &Attr,
    body: &[u8],
    details: &mut SampleDetails,
) -> Status
    ensures { ReadsDetails (format_of_attr endian attr.now) body.now details.old result details.new }
{
    match sample_details(&attr_format(endian, attr), body) {
        Ok(decoded) => {
            *details = decoded;
            Status::Success
        }
        Err(BodyError::Truncated) => Status::Truncated,
        Err(BodyError::UnknownFields) => Status::Other,
    }
}
