//! Context switches.
ghost use Rattle.perfdata_sources.specs.Raw.{bytes_of};
ghost use Rattle.perfdata_events.specs.Single.{KeepsSingle, NoParts};
ghost use Rattle.perfdata_sources.specs.Endian.{number_in};
ghost use Rattle.perfdata_events.specs.Format.{Decodes};
ghost use Rattle.perfdata_events.specs.ContextSwitch.{switch, switch_cpu_wide};

use crate::fields::numbers::field_i32;
use crate::sample_bits::MiscFlags;
use crate::sample_id::Task;
use bitflags::Flags;
use perfdata_base::raw::{Endianness, RawData};
use std::io::Result;

/// A switch of the recorded task (`PERF_RECORD_SWITCH`, `PERF_RECORD_SWITCH_CPU_WIDE`).
#[derive(Clone, Copy, Debug, PartialEq, Eq)]
pub struct ContextSwitchRecord {
    /// Whether the task was switched out, and not in.
    pub is_out: bool,
    /// Whether the task was preempted.
    pub preempted: bool,
    /// The next task after a switch out and the previous one before a switch in, in a record of the whole
    /// CPU.
    pub other_task: Option<Task>,
}

impl ContextSwitchRecord {
    /// Returns the switch of a record without fields.
    pub fn parse(misc: u16, fields: &mut RawData<'_>) -> Result<ContextSwitchRecord>
        ensures decodes { Decodes (switch misc) (λ v. v) (bytes_of fields.old) result (bytes_of fields.new) }
        ensures single { KeepsSingle NoParts fields.old result fields.new }
    {
        Ok(ContextSwitchRecord {
            is_out: MiscFlags(misc).contains(MiscFlags::SWITCH_OUT),
            preempted: MiscFlags(misc).contains(MiscFlags::SWITCH_OUT_PREEMPT),
            other_task: None,
        })
    }

    /// Parses the fields of a record of the whole CPU at the start of `fields`, and removes them.
    ///
    /// Fails with an `UnexpectedEof` error if they are truncated.
    pub fn parse_cpu_wide(
        endian: Endianness,
        misc: u16,
        fields: &mut RawData<'_>,
    ) -> Result<ContextSwitchRecord>
        ensures decodes { Decodes (switch_cpu_wide misc (number_in endian)) (λ v. v) (bytes_of fields.old)
            result (bytes_of fields.new) }
        ensures single { KeepsSingle NoParts fields.old result fields.new }
    {
        let mut bytes = [0u8; 8];
        fields.read_exact(&mut bytes)?;
        Ok(ContextSwitchRecord {
            is_out: MiscFlags(misc).contains(MiscFlags::SWITCH_OUT),
            preempted: MiscFlags(misc).contains(MiscFlags::SWITCH_OUT_PREEMPT),
            other_task: Some(Task {
                pid: field_i32(endian, &bytes, 0),
                tid: field_i32(endian, &bytes, 4),
            }),
        })
    }
}
