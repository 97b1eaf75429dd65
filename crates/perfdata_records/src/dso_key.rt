//! Keys that identify mapped objects.
ghost use Rattle.std.specs.Prelude.{◌≡◌, ◌++◌, IfOk, string_bytes};
ghost use Rattle.perfdata_records.specs.DsoKey.{name_of, lossy_text, file_name_of, is_unmapped, Detects};
ghost use Rattle.perfdata_records.specs.steps.DsoKey.{FindsSpecialName, FindsModuleName};

use bstr::ByteSlice;
use memchr::memrchr;
use perfdata_base::event::CpuMode;
use std::alloc::{AllocError, Global};

/// The key that an object's mappings and its build id have in common, even if their paths differ.
///
/// The mappings of the kernel have the path `[kernel.kallsyms]_text`, and its build id has
/// `[kernel.kallsyms]` or `/boot/vmlinux`.
#[derive(Debug, PartialEq, Eq, Hash, Drop)]
pub enum DsoKey {
    /// The kernel.
    Kernel,
    /// A guest's kernel.
    GuestKernel,
    /// The vDSO of 32-bit programs.
    Vdso32,
    /// The vDSO of x32 programs.
    VdsoX32,
    /// The vDSO of 64-bit programs.
    Vdso64,
    /// The page of legacy system calls.
    Vsyscall,
    /// A kernel module.
    KernelModule {
        /// The module's name in brackets, such as `[snd-seq-device]`.
        name: String,
    },
    /// A file that a program maps.
    User {
        /// The name of the file, with U+FFFD for invalid UTF-8.
        file_name: String,
        /// The full path, which distinguishes files of the same name.
        full_path: Vec<u8>,
    },
}

// Returns the part of a path after the last slash, or all of it if there is none.
fn file_name(path: &[u8]) -> &[u8]
    ensures { result.now ≡ file_name_of path.now }
{
    match memrchr(b'/', path) {
        Some(slash_offset) => &path[slash_offset + 1..],
        None => path,
    }
}

// Returns the bytes as a string, between a prefix and a suffix, with U+FFFD for invalid UTF-8.
fn lossy_between(
    alloc: Global,
    prefix: &str,
    bytes: &[u8],
    suffix: &str,
) -> Result<String, AllocError>
    ensures { IfOk result (λ text. string_bytes text ≡ prefix.now ++ lossy_text bytes.now ++ suffix.now) }
{
    let mut text = String::new(alloc);
    text.push_str(prefix)?;
    bytes.to_str_lossy_into(&mut text)?;
    text.push_str(suffix)?;
    Ok(text)
}

// Returns whether the path names a mapping without an object.
fn is_unmapped(path: &[u8]) -> bool
    ensures { result ≡ is_unmapped path.now }
{
    path == b"//anon".as_slice()
        || path == b"[stack]".as_slice()
        || path == b"[heap]".as_slice()
        || path == b"[vvar]".as_slice()
}

// Returns the name of the kernel module at a path, or `None` if the path is that of no module.
fn module_name(alloc: Global, path: &[u8]) -> Result<Option<String>, AllocError>
    ensures { FindsModuleName path.now result }
{
    if path.starts_with(b"[") {
        return Ok(Some(lossy_between(alloc, "", path, "")?));
    }
    let file = file_name(path);
    if file.ends_with(b".ko") {
        let name = &file[..file.len() - 3];
        return Ok(Some(lossy_between(alloc, "[", name, "]")?));
    }
    Ok(None)
}

impl DsoKey {
    ghost use Rattle.perfdata_records.specs.DsoKey.{key_in};

    // Returns the key for the special names of the kernel, the vDSOs and the vsyscall page. Only the kernel's
    // key depends on the mode.
    fn from_special_name(path: &[u8], mode: CpuMode) -> Option<DsoKey>
        ensures { FindsSpecialName path.now mode result }
    {
        if path.starts_with(b"[kernel.kallsyms]") {
            return match mode {
                CpuMode::GuestKernel => Some(DsoKey::GuestKernel),
                _ => Some(DsoKey::Kernel),
            };
        }
        if path.starts_with(b"[guest.kernel.kallsyms") {
            return Some(DsoKey::GuestKernel);
        }
        if path == b"[vdso32]".as_slice() {
            return Some(DsoKey::Vdso32);
        }
        if path == b"[vdsox32]".as_slice() {
            return Some(DsoKey::VdsoX32);
        }
        if path == b"[vdso]".as_slice() {
            return Some(DsoKey::Vdso64);
        }
        if path == b"[vsyscall]".as_slice() {
            return Some(DsoKey::Vsyscall);
        }
        None
    }

    /// Returns the key of the object with this path in a CPU mode.
    ///
    /// Returns `None` for paths without an object, such as `//anon`, and for files in the modes `Hypervisor`
    /// and `Unknown`. Fails if memory for the strings of the key runs out.
    ///
    /// The first matching case counts: `//anon`, `[stack]`, `[heap]` and `[vvar]` have no key. A path that
    /// starts with `[kernel.kallsyms]` is the kernel, or the guest's kernel in `CpuMode::GuestKernel`. A path
    /// that starts with `[guest.kernel.kallsyms` is the guest's kernel. `[vdso32]`, `[vdsox32]`, `[vdso]` and
    /// `[vsyscall]` have their own keys. In a kernel mode, a path that starts with `[` is the module of that
    /// name, a file `NAME.ko` is the module `[NAME]`, and every other path is the kernel of that mode. In a
    /// user mode, every other path is a file with its name and path.
    pub fn detect(alloc: Global, path: &[u8], mode: CpuMode) -> Result<Option<DsoKey>, AllocError>
        ensures { Detects path.now mode result }
    {
        if is_unmapped(path) {
            return Ok(None);
        }
        if let Some(key) = DsoKey::from_special_name(path, mode) {
            return Ok(Some(key));
        }
        match mode {
            CpuMode::Kernel => match module_name(alloc, path)? {
                Some(name) => Ok(Some(DsoKey::KernelModule { name })),
                None => Ok(Some(DsoKey::Kernel)),
            },
            CpuMode::GuestKernel => match module_name(alloc, path)? {
                Some(name) => Ok(Some(DsoKey::KernelModule { name })),
                None => Ok(Some(DsoKey::GuestKernel)),
            },
            CpuMode::User | CpuMode::GuestUser => {
                let file_name = lossy_between(alloc, "", file_name(path), "")?;
                let full_path = path.to_vec(alloc)?;
                Ok(Some(DsoKey::User {
                    file_name,
                    full_path,
                }))
            }
            CpuMode::Hypervisor | CpuMode::Unknown => Ok(None),
        }
    }

    /// Returns the display name of the object.
    pub fn name(&self) -> &str
        ensures { result.now ≡ name_of (key_in self.now) }
    {
        match self {
            DsoKey::Kernel => "[kernel.kallsyms]",
            DsoKey::GuestKernel => "[guest.kernel.kallsyms]",
            DsoKey::Vdso32 => "[vdso32]",
            DsoKey::VdsoX32 => "[vdsox32]",
            DsoKey::Vdso64 => "[vdso]",
            DsoKey::Vsyscall => "[vsyscall]",
            DsoKey::KernelModule { name } => name.as_str(),
            DsoKey::User { file_name, .. } => file_name.as_str(),
        }
    }
}
