//! The frames of samples that have a copy of their stack.

use bitflags::Flags;
use code_files::{MappedFiles, ProcessCode};
use code_unwind::{
    ChainEnd, FrameOrigin, FrameRegisters, Machine, StackCopy, Unwinder, pc_number, stack_pointer,
};
use linux_perf_data::attr::PerfEventAttr;
use linux_perf_data::raw::{Endianness, RawData};
use linux_perf_data::{Error, PerfFile};
use perfdata_events::call_chain::{CallContext, ChainFrame};
use perfdata_events::registers::SampleRegisters;
use perfdata_events::sample::SampleRecord;
use perfdata_events::sample_bits::{EventFlags, SampleFields};
use perfdata_events::sample_parts::UserStack;
use perfdata_profile::resolver::resolve_frames;
use perfdata_spaces::address_spaces::{AddressSpaces, context_of_mode};
use perfdata_stacks::frames::SampleFrame;
use std::alloc::{AllocError, Global};

// The kinds of programs of samples' registers (`enum perf_sample_regs_abi`).
const ABI_32: u64 = 1;

const ABI_64: u64 = 2;

/// The numbers of samples by the ends of their chains.
#[derive(Clone, Copy, Debug, PartialEq, Eq)]
pub struct EndCounts {
    /// Chains up to the first function of their thread.
    pub complete: u64,
    /// Chains up to the end of the copy.
    pub truncated: u64,
    /// Chains that end in a mapping of whose file no source is used.
    pub missing: u64,
    /// All other chains.
    pub lacking: u64,
}

// How a chain ends, as it is counted.
#[derive(Clone, Copy)]
enum CountedEnd {
    Complete,
    Truncated,
    Missing,
    Lacking,
}

// Which machine samples are of.
#[derive(Clone, Copy)]
enum SampleMachine {
    /// The recording doesn't say it: that of the file at the program counter.
    OfFile,
    Known(Machine),
    /// One whose samples aren't unwound.
    Other,
}

// The chain of a sample.
#[derive(Clone, Copy)]
pub(crate) struct CopiedChain {
    /// The number of its frames.
    pub(crate) size: usize,
    /// Why it ends.
    pub(crate) end: ChainEnd,
}

// A sample with registers: the process, and the mask of the registers.
#[derive(Clone, Copy)]
struct CopiedSample<'a> {
    pid: i32,
    mask: u64,
    registers: SampleRegisters<'a>,
    stack: Option<UserStack<'a>>,
}

// Unwinds samples.
#[derive(Drop)]
pub(crate) struct Unwinding {
    alloc: Global,
    unwinder: Unwinder,
    machine: SampleMachine,
    /// The mask of the registers in samples of the event whose record is next, if they are unwound.
    mask: Option<u64>,
    /// The chain of the last sample.
    pub(crate) chain: CopiedChain,
    pub(crate) counts: EndCounts,
}

// Returns the frame of a sample for a frame of user code.
fn sample_frame(address: u64) -> SampleFrame {
    SampleFrame {
        frame: ChainFrame {
            address,
            context: CallContext::User,
        },
        is_caller: false,
    }
}

// Sets frames to those of the kernel: of the call chain or, of an event without call chains, the instruction.
fn set_kernel_frames(
    misc: u16,
    sample: &SampleRecord<'_>,
    frames: &mut Vec<SampleFrame>,
) -> Result<(), AllocError> {
    let mut own = *sample;
    if sample.call_chain.is_some() || context_of_mode(misc) == CallContext::User {
        own.ip = None;
    }
    resolve_frames(misc, &own, frames)
}

// Returns the bytes of the stack that were copied.
fn copied_bytes(stack: Option<UserStack<'_>>) -> RawData<'_> {
    let Some(stack) = stack else {
        return RawData::Single(&[]);
    };
    let size = match usize::try_from(stack.dynamic_size.unwrap_or(0)) {
        Ok(size) => size.min(stack.bytes.len()),
        Err(_) => stack.bytes.len(),
    };
    stack.bytes.get(0..size).unwrap_or(stack.bytes)
}

// Returns whether the samples of an event have registers and a copy of the stack, and no user frames.
fn has_copies(attr: &PerfEventAttr) -> bool {
    let fields = SampleFields::from_bits_retain(attr.sample_format.0);
    let flags = EventFlags::from_bits_retain(attr.flags.0);
    fields.contains(SampleFields::REGS_USER)
        && fields.contains(SampleFields::STACK_USER)
        && (!fields.contains(SampleFields::CALLCHAIN)
            || flags.contains(EventFlags::EXCLUDE_CALLCHAIN_USER))
}

impl SampleMachine {
    // Returns the machine of a recording.
    fn new(perf_file: &PerfFile) -> Result<SampleMachine, Error> {
        if perf_file.endian() == Endianness::BigEndian {
            return Ok(SampleMachine::Other);
        }
        Ok(match perf_file.arch()? {
            Some("x86_64") => SampleMachine::Known(Machine::X86_64),
            Some("aarch64" | "arm64") => SampleMachine::Known(Machine::AArch64),
            Some(_) => SampleMachine::Other,
            None => SampleMachine::OfFile,
        })
    }
}

impl CopiedChain {
    // The chain of a sample that isn't unwound.
    pub(crate) const NONE: CopiedChain = CopiedChain {
        size: 0,
        end: ChainEnd::None,
    };
}

impl EndCounts {
    // Counts a chain.
    fn add(&mut self, end: CountedEnd) {
        let count = match end {
            CountedEnd::Complete => &mut self.complete,
            CountedEnd::Truncated => &mut self.truncated,
            CountedEnd::Missing => &mut self.missing,
            CountedEnd::Lacking => &mut self.lacking,
        };
        *count = count.saturating_add(1);
    }

    /// Returns the number of chains.
    pub fn total(&self) -> u64 {
        self.complete
            .saturating_add(self.truncated)
            .saturating_add(self.missing)
            .saturating_add(self.lacking)
    }
}

impl CopiedSample<'_> {
    // Returns the program counter in the registers, also of a process of 32 bits.
    fn pc(&self, machine: Machine) -> Option<u64> {
        let mut wide = self.registers;
        wide.abi = ABI_64;
        FrameRegisters::from_sample(machine, self.mask, &wide)?.get(pc_number(machine))
    }
}

impl Unwinding {
    pub(crate) fn new(alloc: Global) -> Unwinding {
        Unwinding {
            alloc,
            unwinder: Unwinder::new(alloc),
            machine: SampleMachine::Other,
            mask: None,
            chain: CopiedChain::NONE,
            counts: EndCounts {
                complete: 0,
                truncated: 0,
                missing: 0,
                lacking: 0,
            },
        }
    }

    // Reads the machine of the recording.
    pub(crate) fn read_metadata(&mut self, perf_file: &PerfFile) -> Result<(), Error> {
        self.machine = SampleMachine::new(perf_file)?;
        Ok(())
    }

    // Sets the event of the sample that comes next.
    pub(crate) fn select_event(&mut self, attr: &PerfEventAttr) {
        self.mask = if has_copies(attr) {
            Some(attr.sample_regs_user)
        } else {
            None
        };
    }

    // Returns how a frame of the last chain was found, by its index.
    pub(crate) fn origin(&self, index: usize) -> Option<FrameOrigin> {
        Some(self.unwinder.frames().get(index)?.origin)
    }

    // Returns the machine of a sample: of the file at its program counter if the recording doesn't say it.
    fn find_machine(
        &self,
        files: &mut MappedFiles<'_>,
        spaces: &AddressSpaces,
        sample: &CopiedSample<'_>,
    ) -> Result<Option<Machine>, AllocError> {
        match self.machine {
            SampleMachine::Known(machine) => return Ok(Some(machine)),
            SampleMachine::Other => return Ok(None),
            SampleMachine::OfFile => {}
        }
        for machine in [Machine::X86_64, Machine::AArch64] {
            if let Some(pc) = sample.pc(machine) {
                let mut code = ProcessCode::new(files, spaces, sample.pid, machine);
                if code.has_machine(pc)? {
                    return Ok(Some(machine));
                }
            }
        }
        Ok(None)
    }

    // Returns how the last chain, which ends so, is counted. What ends for lack of call frame information is
    // counted by the mapping of the last frame too.
    fn counted_end(
        &self,
        files: &mut MappedFiles<'_>,
        spaces: &AddressSpaces,
        pid: i32,
        end: ChainEnd,
    ) -> Result<CountedEnd, AllocError> {
        match end {
            ChainEnd::Root => return Ok(CountedEnd::Complete),
            ChainEnd::Truncated => return Ok(CountedEnd::Truncated),
            _ => {}
        }
        let Some(last) = self.unwinder.frames().last() else {
            return Ok(CountedEnd::Lacking);
        };
        let Some(index) = spaces.find_index(pid, last.address, CallContext::User) else {
            return Ok(CountedEnd::Lacking);
        };
        match spaces.mapping(index) {
            Some(mapping) if files.add_lacking_chain(index, mapping)? => Ok(CountedEnd::Missing),
            _ => Ok(CountedEnd::Lacking),
        }
    }

    // Unwinds a sample of a process of 64 bits. Adds its frames.
    fn unwind(
        &mut self,
        files: &mut MappedFiles<'_>,
        spaces: &AddressSpaces,
        machine: Machine,
        sample: &CopiedSample<'_>,
        registers: &FrameRegisters,
        frames: &mut Vec<SampleFrame>,
    ) -> Result<(), AllocError> {
        let bytes = copied_bytes(sample.stack).as_slice(self.alloc)?;
        let copy = StackCopy {
            address: registers.get(stack_pointer(machine)).unwrap_or(0),
            bytes: &bytes,
        };
        let mut code = ProcessCode::new(files, spaces, sample.pid, machine);
        let end = self.unwinder.unwind(&mut code, machine, registers, copy)?;
        for frame in self.unwinder.frames() {
            frames.push(sample_frame(frame.address))?;
        }
        let size = self.unwinder.frames().len();
        self.chain = CopiedChain { size, end };
        let counted = self.counted_end(files, spaces, sample.pid, end)?;
        self.counts.add(counted);
        Ok(())
    }

    // Adds the user frames of a sample of a machine.
    fn push_user_frames(
        &mut self,
        files: &mut MappedFiles<'_>,
        spaces: &AddressSpaces,
        machine: Machine,
        sample: &CopiedSample<'_>,
        frames: &mut Vec<SampleFrame>,
    ) -> Result<(), AllocError> {
        if let Some(registers) = FrameRegisters::from_sample(
            machine,
            sample.mask,
            &sample.registers,
        ) {
            return self.unwind(files, spaces, machine, sample, &registers, frames);
        }
        if sample.registers.abi == ABI_32 {
            if let Some(pc) = sample.pc(machine) {
                frames.push(sample_frame(pc))?;
                self.chain = CopiedChain {
                    size: 1,
                    end: ChainEnd::OtherAbi,
                };
            }
        }
        Ok(())
    }

    // Sets `frames` to the frames of a sample, the leaf first: those of the kernel, and those of the user
    // code that its copy of the stack shows. A sample that isn't unwound has the frames of its chain or its
    // instruction.
    pub(crate) fn unwind_frames(
        &mut self,
        files: &mut MappedFiles<'_>,
        spaces: &AddressSpaces,
        misc: u16,
        sample: &SampleRecord<'_>,
        frames: &mut Vec<SampleFrame>,
    ) -> Result<(), AllocError> {
        self.chain = CopiedChain::NONE;
        if let (Some(mask), Some(registers)) = (self.mask, sample.user_registers) {
            let copied = CopiedSample {
                pid: sample.task.map_or(-1, |task| task.pid),
                mask,
                registers,
                stack: sample.user_stack,
            };
            if let Some(machine) = self.find_machine(files, spaces, &copied)? {
                set_kernel_frames(misc, sample, frames)?;
                self.push_user_frames(files, spaces, machine, &copied, frames)?;
                if !frames.is_empty() {
                    return Ok(());
                }
            }
        }
        resolve_frames(misc, sample, frames)
    }
}
