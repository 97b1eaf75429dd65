//! The names of Linux constants.
use bitflags::Flags;
use linux_perf_data::event::RecordType;
use std::fmt;
use std::fmt::Write;

/// Returns the name of a clock of `clock_gettime`.
pub(crate) fn clock_name(number: u32) -> &'static str {
    match number {
        0 => "realtime",
        1 => "monotonic",
        4 => "monotonic_raw",
        7 => "boottime",
        11 => "tai",
        _ => "unknown",
    }
}

/// Returns the name of an event type (`perf_type_id`). Higher numbers are dynamic units of PMU_MAPPINGS.
pub(crate) fn event_type_name(number: u32) -> &'static str {
    match number {
        0 => "hardware",
        1 => "software",
        2 => "tracepoint",
        3 => "hardware cache",
        4 => "raw",
        5 => "breakpoint",
        _ => "unit",
    }
}

/// Displays flags in hexadecimal and the names of those that are set, in lower case if `is_lower`. A flag of
/// several bits has a number for each.
#[derive(Clone, Copy)]
pub struct FlagNames<F> {
    /// The flags.
    pub flags: F,
    /// Whether the names are in lower case.
    pub is_lower: bool,
}

impl<F: Flags<Bits = u64>> fmt::Display for FlagNames<F> {
    fn fmt<W: fmt::Write>(&self, f: &mut fmt::Formatter<W>) -> fmt::Result {
        let set = self.flags.bits();
        write!(f, "{set:#x}")?;
        for flag in F::flags() {
            let bits = flag.value().bits();
            write_flag(f, Name(flag.name(), self.is_lower), bits, set)?;
        }
        Ok(())
    }
}

// Writes the name of a flag for each of its bits that is set.
fn write_flag<W: fmt::Write>(
    f: &mut fmt::Formatter<W>,
    name: Name<'_>,
    bits: u64,
    set: u64,
) -> fmt::Result {
    let first = bits.trailing_zeros();
    for at in 0..bits.count_ones() {
        if set.unbounded_shr(first.saturating_add(at)) % 2 == 1 {
            write!(f, " {name}")?;
            if bits.count_ones() > 1 {
                write!(f, "_{}", at.saturating_add(1))?;
            }
        }
    }
    Ok(())
}

// The name of a flag, in lower case if so.
#[derive(Clone, Copy)]
struct Name<'a>(&'a str, bool);

impl fmt::Display for Name<'_> {
    fn fmt<W: fmt::Write>(&self, f: &mut fmt::Formatter<W>) -> fmt::Result {
        for character in self.0.chars() {
            f.write_char(if self.1 {
                character.to_ascii_lowercase()
            } else {
                character
            })?;
        }
        Ok(())
    }
}

/// The formats whose record types have names.
#[derive(Clone, Copy)]
pub enum RecordTypes {
    /// Those of files and pipes.
    PerfFile,
    /// Those of jitdumps.
    JitDump,
}

impl RecordTypes {
    /// Returns the name of a type.
    pub(crate) fn name(self, number: u32) -> &'static str {
        match self {
            RecordTypes::PerfFile => RecordType(number).name().unwrap_or("unknown"),
            RecordTypes::JitDump => jit_record_type_name(number),
        }
    }
}

// Returns the name of a type of jitdump records.
fn jit_record_type_name(number: u32) -> &'static str {
    match number {
        0 => "CODE_LOAD",
        1 => "CODE_MOVE",
        2 => "CODE_DEBUG_INFO",
        3 => "CODE_CLOSE",
        4 => "CODE_UNWINDING_INFO",
        _ => "unknown",
    }
}
