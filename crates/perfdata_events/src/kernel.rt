//! Records on the kernel's code.
ghost use Rattle.perfdata_sources.specs.Raw.{bytes_of, IsSingle};
ghost use Rattle.perfdata_events.specs.Single.{KeepsSingle};
ghost use Rattle.perfdata_sources.specs.Endian.{number_in};
ghost use Rattle.perfdata_events.specs.Format.{Decodes};

use crate::fields::numbers::{field_u16, field_u32, field_u64};
use crate::fields::text::read_text;
use perfdata_base::raw::{Endianness, RawData};
use std::io::Result;

/// A symbol that the kernel registered or removed (`PERF_RECORD_KSYMBOL`).
#[derive(Clone, Copy, Debug, PartialEq, Eq)]
pub struct KsymbolRecord<'a> {
    /// The start address.
    pub address: u64,
    /// The length in bytes.
    pub length: u32,
    /// The type: 1 is a BPF program, 2 out-of-line code.
    pub symbol_type: u16,
    /// The flags: bit 0 is set if the symbol was removed.
    pub flags: u16,
    /// The name.
    pub name: RawData<'a>,
}

/// An event of a BPF program (`PERF_RECORD_BPF_EVENT`).
#[derive(Clone, Copy, Debug, PartialEq, Eq)]
pub struct BpfEventRecord<'a> {
    /// The type: 1 if the program was loaded, 2 if it was unloaded.
    pub event_type: u16,
    /// The flags.
    pub flags: u16,
    /// The program's id.
    pub id: u32,
    /// The program's tag, of eight bytes.
    pub tag: RawData<'a>,
}

/// Changed code of the kernel (`PERF_RECORD_TEXT_POKE`).
#[derive(Clone, Copy, Debug, PartialEq, Eq)]
pub struct TextPokeRecord<'a> {
    /// The address of the code.
    pub address: u64,
    /// The bytes before the change.
    pub old_bytes: RawData<'a>,
    /// The bytes after the change.
    pub new_bytes: RawData<'a>,
}

impl<'a> KsymbolRecord<'a> {
    ghost use Rattle.perfdata_events.specs.Ksymbol.{ksymbol, symbol_of};

    /// Parses the fields at the start of `fields`, and removes them.
    ///
    /// Fails with an `UnexpectedEof` error if they are truncated, and with an `InvalidData` error if the name
    /// has no NUL.
    pub fn parse(endian: Endianness, fields: &mut RawData<'a>) -> Result<KsymbolRecord<'a>>
        ensures decodes { Decodes (ksymbol (number_in endian)) symbol_of (bytes_of fields.old) result
            (bytes_of fields.new) }
        ensures single { KeepsSingle (λ v. IsSingle v.name) fields.old result fields.new }
    {
        let mut bytes = [0u8; 16];
        fields.read_exact(&mut bytes)?;
        let name = read_text(fields)?;
        Ok(KsymbolRecord {
            address: field_u64(endian, &bytes, 0),
            length: field_u32(endian, &bytes, 8),
            symbol_type: field_u16(endian, &bytes, 12),
            flags: field_u16(endian, &bytes, 14),
            name,
        })
    }
}

impl<'a> BpfEventRecord<'a> {
    ghost use Rattle.perfdata_events.specs.BpfEvent.{bpf_event, bpf_event_of};

    /// Parses the fields at the start of `fields`, and removes them.
    ///
    /// Fails with an `UnexpectedEof` error if they are truncated.
    pub fn parse(endian: Endianness, fields: &mut RawData<'a>) -> Result<BpfEventRecord<'a>>
        ensures decodes { Decodes (bpf_event (number_in endian)) bpf_event_of (bytes_of fields.old) result
            (bytes_of fields.new) }
        ensures single { KeepsSingle (λ v. IsSingle v.tag) fields.old result fields.new }
    {
        let mut bytes = [0u8; 8];
        fields.read_exact(&mut bytes)?;
        let tag = fields.split_off_prefix(8)?;
        Ok(BpfEventRecord {
            event_type: field_u16(endian, &bytes, 0),
            flags: field_u16(endian, &bytes, 2),
            id: field_u32(endian, &bytes, 4),
            tag,
        })
    }
}

impl<'a> TextPokeRecord<'a> {
    ghost use Rattle.perfdata_events.specs.TextPoke.{text_poke, poke_of};

    /// Parses the fields at the start of `fields`, and removes them.
    ///
    /// Fails with an `UnexpectedEof` error if they are truncated.
    pub fn parse(endian: Endianness, fields: &mut RawData<'a>) -> Result<TextPokeRecord<'a>>
        ensures decodes { Decodes (text_poke (number_in endian)) poke_of (bytes_of fields.old) result
            (bytes_of fields.new) }
        ensures single { KeepsSingle (λ v. IsSingle v.old_bytes × IsSingle v.new_bytes) fields.old result
            fields.new }
    {
        let mut bytes = [0u8; 12];
        fields.read_exact(&mut bytes)?;
        let old_len = field_u16(endian, &bytes, 8) as usize;
        let new_len = field_u16(endian, &bytes, 10) as usize;
        let old_bytes = fields.split_off_prefix(old_len)?;
        let new_bytes = fields.split_off_prefix(new_len)?;
        Ok(TextPokeRecord {
            address: field_u64(endian, &bytes, 0),
            old_bytes,
            new_bytes,
        })
    }
}
