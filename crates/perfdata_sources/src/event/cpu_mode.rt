//! CPU modes.
ghost use Rattle.std.specs.Prelude.{◌≡◌, ◌%◌};
ghost use Rattle.perfdata_sources.specs.CpuMode.{cpu_mode_of};

/// The mode of the processor when a record was written.
#[derive(Clone, Copy, Debug, PartialEq, Eq)]
pub enum CpuMode {
    /// The mode isn't reported.
    Unknown,
    /// The kernel.
    Kernel,
    /// A program.
    User,
    /// A hypervisor.
    Hypervisor,
    /// The kernel of a guest.
    GuestKernel,
    /// A program of a guest.
    GuestUser,
}

impl CpuMode {
    /// Returns the mode in the lowest three bits of a record header's `misc`
    /// (`PERF_RECORD_MISC_CPUMODE_MASK`): 1 is the kernel, 2 a program, 3 the hypervisor, 4 a guest's kernel
    /// and 5 a guest's program.
    pub fn from_misc(misc: u16) -> CpuMode
        ensures { result ≡ cpu_mode_of (misc % 8) }
    {
        match misc & 7 {
            1 => CpuMode::Kernel,
            2 => CpuMode::User,
            3 => CpuMode::Hypervisor,
            4 => CpuMode::GuestKernel,
            5 => CpuMode::GuestUser,
            _ => CpuMode::Unknown,
        }
    }
}
