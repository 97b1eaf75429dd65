//! Call chains.
ghost use Rattle.std.specs.Prelude.{◌≡◌, [], ◌∷◌, IfNone, IfSome};
ghost use Rattle.std.specs.Option.{option_map};
ghost use Rattle.std.specs.Iterator.{YieldsFirstBy, item_count};
ghost use Rattle.perfdata_sources.specs.Endian.{number_in};
ghost use Rattle.perfdata_identifiers.specs.ParseInfo.{is_set};
ghost use Rattle.perfdata_sources.specs.Raw.{bytes_of};
ghost use Rattle.perfdata_events.specs.SampleFormat.{CALLCHAIN};
ghost use Rattle.perfdata_events.specs.Single.{KeepsSingle};
ghost use Rattle.perfdata_events.specs.SingleParts.{SingleChain};
ghost use Rattle.perfdata_events.specs.Format.{Decodes, optional};
ghost use Rattle.perfdata_events.specs.Words.{u64s_in};

use crate::fields::u64s::RawDataU64;
use crate::fields::words::{read_u64, read_u64_list, split_first_u64};
use crate::format::EventFormat;
use crate::sample_bits::SampleFields;
use bitflags::Flags;
use perfdata_base::raw::{Endianness, RawData};
use std::io::Result;

// The smallest value that changes the context (`PERF_CONTEXT_MAX`), -4095 as a u64.
const CONTEXT_MAX: u64 = 0xffff_ffff_ffff_f001;

// The context of the hypervisor (`PERF_CONTEXT_HV`), -32 as a u64.
const CONTEXT_HV: u64 = 0xffff_ffff_ffff_ffe0;

// The context of the kernel (`PERF_CONTEXT_KERNEL`), -128 as a u64.
const CONTEXT_KERNEL: u64 = 0xffff_ffff_ffff_ff80;

// The context of a program (`PERF_CONTEXT_USER`), -512 as a u64.
const CONTEXT_USER: u64 = 0xffff_ffff_ffff_fe00;

// The context of a guest (`PERF_CONTEXT_GUEST`), -2048 as a u64.
const CONTEXT_GUEST: u64 = 0xffff_ffff_ffff_f800;

// The context of a guest's kernel (`PERF_CONTEXT_GUEST_KERNEL`), -2176 as a u64.
const CONTEXT_GUEST_KERNEL: u64 = 0xffff_ffff_ffff_f780;

// The context of a guest's program (`PERF_CONTEXT_GUEST_USER`), -2560 as a u64.
const CONTEXT_GUEST_USER: u64 = 0xffff_ffff_ffff_f600;

/// The context of a frame.
#[derive(Clone, Copy, Debug, PartialEq, Eq)]
pub enum CallContext {
    /// The hypervisor.
    Hypervisor,
    /// The kernel.
    Kernel,
    /// A program.
    User,
    /// A guest.
    Guest,
    /// The kernel of a guest.
    GuestKernel,
    /// A program of a guest.
    GuestUser,
    /// A context that isn't known.
    Unknown,
}

/// A frame of a call chain.
#[derive(Clone, Copy, Debug, PartialEq, Eq)]
pub struct ChainFrame {
    /// The address.
    pub address: u64,
    /// The context of the address.
    pub context: CallContext,
}

/// A call chain, innermost frame first, with marks where the context changes.
#[derive(Clone, Copy, Debug)]
pub struct CallChain<'a> {
    /// The addresses and the marks.
    pub values: RawDataU64<'a>,
}

/// An iterator over the frames of a call chain, in order. Contracts describe the rest with
/// `remaining_frames`.
#[derive(Drop)]
pub struct CallChainIter<'a> {
    context: CallContext,
    values: RawDataU64<'a>,
}

ghost use Rattle.perfdata_events.specs.CallChain.{is_context_change, call_context, frames_of};

/// Returns whether a value of a call chain changes the context. Then it is no frame.
pub fn is_context_change(value: u64) -> bool
    ensures { result ≡ is_context_change value }
{
    CONTEXT_MAX <= value
}

/// Returns the context that a value which changes the context begins.
pub fn call_context(value: u64) -> CallContext
    ensures { result ≡ call_context value }
{
    if value == CONTEXT_HV {
        CallContext::Hypervisor
    } else if value == CONTEXT_KERNEL {
        CallContext::Kernel
    } else if value == CONTEXT_USER {
        CallContext::User
    } else if value == CONTEXT_GUEST {
        CallContext::Guest
    } else if value == CONTEXT_GUEST_KERNEL {
        CallContext::GuestKernel
    } else if value == CONTEXT_GUEST_USER {
        CallContext::GuestUser
    } else {
        CallContext::Unknown
    }
}

// The first frame of the values after a context, and the values after it.
fn split_first_frame(
    context: CallContext,
    values: RawDataU64<'_>,
) -> Option<(ChainFrame, RawDataU64<'_>)>
    ensures none { IfNone result (frames_of context (u64s_in values.entry) ≡ []) }
    ensures some { IfSome result (λ parts. frames_of context (u64s_in values.entry) ≡ parts.0
        ∷ frames_of parts.0.context (u64s_in parts.1)) }
{
    let mut current = context;
    let mut rest = values;
    'values: while let Some((value, tail)) = split_first_u64(rest) {
        rest = tail;
        if !is_context_change(value) {
            let frame = ChainFrame {
                address: value,
                context: current,
            };
            return Some((frame, rest));
        }
        current = call_context(value);
    }
    None
}

impl<'a> CallChain<'a> {
    ghost use Rattle.perfdata_events.specs.declared.fields.call_chain.CallContext.TheVariants.{User};
    ghost use Rattle.perfdata_events.specs.CallChain.{chain, chain_values_of};
    ghost use Rattle.perfdata_events.specs.CallChain.{remaining_frames};

    /// Returns an iterator over the frames, in order.
    pub fn iter(&self) -> CallChainIter<'a>
        ensures { remaining_frames result ≡ frames_of User (chain_values_of self.now) }
    {
        CallChainIter {
            context: CallContext::User,
            values: self.values,
        }
    }

    /// Parses a call chain at the start of `fields`, and removes it.
    ///
    /// Fails with an `UnexpectedEof` error if it is truncated.
    pub fn parse(endian: Endianness, fields: &mut RawData<'a>) -> Result<CallChain<'a>>
        ensures decodes { Decodes (chain (number_in endian)) chain_values_of (bytes_of fields.old) result
            (bytes_of fields.new) }
        ensures single { KeepsSingle SingleChain fields.old result fields.new }
    {
        let count = read_u64(endian, fields)?;
        let values = read_u64_list(endian, fields, count)?;
        Ok(CallChain { values })
    }

    /// Does what [`CallChain::parse`] does if samples of the format have a chain.
    #[inline(always)]
    pub fn parse_if(format: &EventFormat, fields: &mut RawData<'a>) -> Result<Option<CallChain<'a>>>
        ensures decodes { Decodes (optional (is_set format.now.sample_format.0 CALLCHAIN)
            (chain (number_in format.now.endian))) (option_map chain_values_of) (bytes_of fields.old) result
            (bytes_of fields.new) }
        ensures single { KeepsSingle (λ v. IfSome v SingleChain) fields.old result fields.new }
    {
        if !format.sample_format.contains(SampleFields::CALLCHAIN) {
            return Ok(None);
        }
        CallChain::parse(format.endian, fields).map(Some)
    }
}

impl<'a> Iterator for CallChainIter<'a> {
    ghost use Rattle.perfdata_events.specs.CallChain.{remaining_frames};

    type Item = ChainFrame;

    ghost next_gives = { YieldsFirstBy (λ frame. frame) remaining_frames };

    ghost remaining = { item_count remaining_frames };

    fn next(&mut self) -> Option<ChainFrame> {
        let (frame, rest) = split_first_frame(self.context, self.values)?;
        self.context = frame.context;
        self.values = rest;
        Some(frame)
    }
}
