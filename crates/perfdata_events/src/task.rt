//! Records on tasks.
ghost use Rattle.perfdata_sources.specs.Raw.{bytes_of, IsSingle};
ghost use Rattle.perfdata_events.specs.Single.{KeepsSingle, NoParts};
ghost use Rattle.perfdata_events.specs.SingleParts.{SingleNumbers};
ghost use Rattle.perfdata_sources.specs.Endian.{number_in};
ghost use Rattle.perfdata_events.specs.Format.{Decodes};
ghost use Rattle.perfdata_events.specs.ForkOrExit.{fork_or_exit};

use crate::fields::numbers::{field_i32, field_u64};
use crate::fields::text::read_text;
use crate::fields::u64s::RawDataU64;
use crate::fields::words::read_u64s;
use crate::sample_bits::MiscFlags;
use bitflags::Flags;
use perfdata_base::raw::{Endianness, RawData};
use std::io::Result;

/// A task that began or ended (`PERF_RECORD_FORK`, `PERF_RECORD_EXIT`).
#[derive(Clone, Copy, Debug, PartialEq, Eq)]
pub struct ForkOrExitRecord {
    /// The process id.
    pub pid: i32,
    /// The process id of the parent.
    pub ppid: i32,
    /// The thread id.
    pub tid: i32,
    /// The thread id of the parent.
    pub ptid: i32,
    /// The time.
    pub timestamp: u64,
}

/// The name of a task (`PERF_RECORD_COMM`).
#[derive(Clone, Copy, Debug, PartialEq, Eq)]
pub struct CommOrExecRecord<'a> {
    /// The process id.
    pub pid: i32,
    /// The thread id.
    pub tid: i32,
    /// Whether the task executed another program.
    pub is_execve: bool,
    /// The name.
    pub name: RawData<'a>,
}

/// The path of a control group (`PERF_RECORD_CGROUP`).
#[derive(Clone, Copy, Debug, PartialEq, Eq)]
pub struct CgroupRecord<'a> {
    /// The id of the control group.
    pub id: u64,
    /// The path.
    pub path: RawData<'a>,
}

/// The namespaces of a task (`PERF_RECORD_NAMESPACES`).
#[derive(Clone, Copy, Debug)]
pub struct NamespacesRecord<'a> {
    /// The process id.
    pub pid: i32,
    /// The thread id.
    pub tid: i32,
    /// The device and the inode of each namespace.
    pub namespaces: RawDataU64<'a>,
}

/// A namespace of a task.
#[derive(Clone, Copy, Debug, PartialEq, Eq)]
pub struct Namespace {
    /// The device of its file.
    pub device: u64,
    /// The inode of its file.
    pub inode: u64,
}

impl ForkOrExitRecord {
    /// Parses the fields at the start of `fields`, and removes them.
    ///
    /// Fails with an `UnexpectedEof` error if they are truncated.
    pub fn parse(endian: Endianness, fields: &mut RawData<'_>) -> Result<ForkOrExitRecord>
        ensures decodes { Decodes (fork_or_exit (number_in endian)) (λ v. v) (bytes_of fields.old) result
            (bytes_of fields.new) }
        ensures single { KeepsSingle NoParts fields.old result fields.new }
    {
        let mut bytes = [0u8; 24];
        fields.read_exact(&mut bytes)?;
        Ok(ForkOrExitRecord {
            pid: field_i32(endian, &bytes, 0),
            ppid: field_i32(endian, &bytes, 4),
            tid: field_i32(endian, &bytes, 8),
            ptid: field_i32(endian, &bytes, 12),
            timestamp: field_u64(endian, &bytes, 16),
        })
    }
}

impl<'a> CommOrExecRecord<'a> {
    ghost use Rattle.perfdata_events.specs.Comm.{comm, named_task_of};

    /// Parses the fields at the start of `fields`, and removes them. `misc` is that of the record header.
    ///
    /// Fails with an `UnexpectedEof` error if they are truncated, and with an `InvalidData` error if the name
    /// has no NUL.
    pub fn parse(
        endian: Endianness,
        misc: u16,
        fields: &mut RawData<'a>,
    ) -> Result<CommOrExecRecord<'a>>
        ensures decodes { Decodes (comm (number_in endian) misc) named_task_of (bytes_of fields.old) result
            (bytes_of fields.new) }
        ensures single { KeepsSingle (λ v. IsSingle v.name) fields.old result fields.new }
    {
        let mut bytes = [0u8; 8];
        fields.read_exact(&mut bytes)?;
        let name = read_text(fields)?;
        Ok(CommOrExecRecord {
            pid: field_i32(endian, &bytes, 0),
            tid: field_i32(endian, &bytes, 4),
            is_execve: MiscFlags(misc).contains(MiscFlags::COMM_EXEC),
            name,
        })
    }
}

impl<'a> CgroupRecord<'a> {
    ghost use Rattle.perfdata_events.specs.Cgroup.{cgroup, cgroup_of};

    /// Parses the fields at the start of `fields`, and removes them.
    ///
    /// Fails with an `UnexpectedEof` error if they are truncated, and with an `InvalidData` error if the path
    /// has no NUL.
    pub fn parse(endian: Endianness, fields: &mut RawData<'a>) -> Result<CgroupRecord<'a>>
        ensures decodes { Decodes (cgroup (number_in endian)) cgroup_of (bytes_of fields.old) result
            (bytes_of fields.new) }
        ensures single { KeepsSingle (λ v. IsSingle v.path) fields.old result fields.new }
    {
        let mut bytes = [0u8; 8];
        fields.read_exact(&mut bytes)?;
        let path = read_text(fields)?;
        Ok(CgroupRecord {
            id: field_u64(endian, &bytes, 0),
            path,
        })
    }
}

impl<'a> NamespacesRecord<'a> {
    ghost use Rattle.std.specs.Prelude.{◌≡◌, ◌≤◌, ◌<◌, IfSome, IfNone};
    ghost use Rattle.perfdata_events.specs.Namespaces.{namespaces, namespaces_of, namespace_count};
    ghost use Rattle.perfdata_events.specs.Namespaces.{namespace_at};

    /// Returns the number of namespaces.
    pub fn len(&self) -> usize
        ensures { result ≡ namespace_count self.now }
    {
        self.namespaces.len() / 2
    }

    /// Returns the namespace at an index, or `None` if there are no more namespaces than `index`.
    pub fn get(&self, index: usize) -> Option<Namespace>
        ensures none { IfNone result (namespace_count self.now ≤ index) }
        ensures within { IfSome result (λ _. index < namespace_count self.now) }
        ensures namespace { IfSome result (λ value. value ≡ namespace_at self.now index) }
    {
        if index >= self.namespaces.len() / 2 {
            return None;
        }
        let start = 2 * index;
        Some(Namespace {
            device: self.namespaces.get(start)?,
            inode: self.namespaces.get(start + 1)?,
        })
    }

    /// Parses the fields at the start of `fields`, and removes them.
    ///
    /// Fails with an `UnexpectedEof` error if they are truncated.
    pub fn parse(endian: Endianness, fields: &mut RawData<'a>) -> Result<NamespacesRecord<'a>>
        ensures decodes { Decodes (namespaces (number_in endian)) namespaces_of (bytes_of fields.old) result
            (bytes_of fields.new) }
        ensures single { KeepsSingle (λ v. SingleNumbers v.namespaces) fields.old result fields.new }
    {
        let mut bytes = [0u8; 16];
        fields.read_exact(&mut bytes)?;
        let namespaces = read_u64s(endian, fields, field_u64(endian, &bytes, 8), 2)?;
        Ok(NamespacesRecord {
            pid: field_i32(endian, &bytes, 0),
            tid: field_i32(endian, &bytes, 4),
            namespaces,
        })
    }
}
