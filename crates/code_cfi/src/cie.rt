//! Common information entries (CIE): what several FDEs share.
ghost use Rattle.std.specs.Prelude.{◌≡◌, ◌≤◌, ◌<◌, length, true, false, IfOk, IfSome, OnErr, is_some};
ghost use Rattle.code_cfi.specs.Cies.{StringAt, SizesAt, ReturnAddressAt, PersonalityAt, letter_code};
ghost use Rattle.code_cfi.specs.Cies.{is_letter, LettersAt, LetterAt, AugmentationAt, VersionAt};
ghost use Rattle.code_cfi.specs.Cies.{CieAt, some_augmentation};
ghost use Rattle.code_cfi.specs.steps.Cies.{NoString, NoSizes, NoReturnAddress};
ghost use Rattle.code_cfi.specs.steps.Cies.{NoPersonality, NoLetter, NoLetters, NoAugmentation};
ghost use Rattle.code_cfi.specs.steps.Cies.{NoVersion, NoCie};

use crate::byte_range::ByteRange;
use crate::entry::CfiEntry;
use crate::error::CfiError;
use crate::leb128::{read_block, read_byte, read_sleb128, read_uleb128, skip};
use crate::pointers::read_encoded;

// The encoding of a pointer that isn't there (`DW_EH_PE_omit`).
const OMITTED: u8 = 0xff;

/// A common information entry (CIE).
#[derive(Clone, Copy, Debug, PartialEq, Eq)]
pub struct Cie {
    /// The offset of the entry in the section.
    pub offset: usize,
    /// The factor of advances of the location (`code_alignment_factor`).
    pub code_factor: u64,
    /// The factor of offsets (`data_alignment_factor`).
    pub data_factor: i64,
    /// The number of the register that the return address is the caller's value of.
    pub return_address: u64,
    /// What the augmentation says.
    pub augmentation: Augmentation,
    /// The instructions that make the initial row.
    pub instructions: ByteRange,
}

/// What the augmentation of a CIE says.
#[derive(Clone, Copy, Debug, PartialEq, Eq)]
pub struct Augmentation {
    /// Whether the entries have augmentation data (`z`).
    pub has_data: bool,
    /// How FDEs encode their addresses (`R`).
    pub pointer_encoding: u8,
    /// Whether the frames are those of signal handlers' callers (`S`).
    pub is_signal: bool,
}

// Reads the bytes before the first zero byte, and returns them with what follows that.
fn read_string(bytes: &[u8]) -> Result<(&[u8], &[u8]), CfiError>
    ensures found { IfOk result (λ x. StringAt bytes.now x.0.now x.1.now) }
    ensures none { OnErr result (NoString bytes.now) }
    ensures shorter { IfOk result (λ x. length x.1.now ≤ length bytes.now) }
{
    match bytes.iter().position(|byte| *byte == 0) {
        Some(size) => {
            let (string, rest) = bytes.split_at(size);
            Ok((string, skip(rest, 1)?))
        }
        None => Err(CfiError::Truncated),
    }
}

// Reads the sizes of an address and of a segment selector, which version 4 has.
fn skip_sizes(version: u8, bytes: &[u8]) -> Result<&[u8], CfiError>
    ensures found { IfOk result (λ rest. SizesAt version bytes.now rest.now) }
    ensures none { OnErr result (NoSizes version bytes.now) }
    ensures shorter { IfOk result (λ rest. length rest.now ≤ length bytes.now) }
{
    if version != 4 {
        return Ok(bytes);
    }
    let (address_size, after) = read_byte(bytes)?;
    if address_size != 8 {
        return Err(CfiError::AddressSize(address_size));
    }
    let (segment_size, rest) = read_byte(after)?;
    if segment_size != 0 {
        return Err(CfiError::SegmentSize(segment_size));
    }
    Ok(rest)
}

// Skips the encoding and the address of a personality routine.
fn skip_personality(bytes: &[u8]) -> Result<&[u8], CfiError>
    ensures found { IfOk result (λ rest. PersonalityAt bytes.now rest.now) }
    ensures none { OnErr result (NoPersonality bytes.now) }
{
    let (encoding, mid) = read_byte(bytes)?;
    if encoding == OMITTED {
        return Ok(mid);
    }
    let (_, rest) = read_encoded(mid, encoding)?;
    Ok(rest)
}

// A letter of an augmentation.
#[derive(Clone, Copy)]
pub(crate) enum Letter {
    // `L`: an encoding of pointers to data of the language.
    Language,
    // `P`: the personality routine.
    Personality,
    // `R`: the encoding of the addresses in FDEs.
    PointerEncoding,
    // `S`: the frames are those of signals.
    SignalFrame,
    // `B`: return addresses are signed with another key.
    PointerKey,
}

// The letter that a byte is.
fn augmentation_letter(byte: u8) -> Option<Letter>
    ensures code { IfSome result (λ letter. letter_code letter ≡ byte) }
    ensures known { is_some result ≡ is_letter byte }
{
    match byte {
        b'L' => Some(Letter::Language),
        b'P' => Some(Letter::Personality),
        b'R' => Some(Letter::PointerEncoding),
        b'S' => Some(Letter::SignalFrame),
        b'B' => Some(Letter::PointerKey),
        _ => None,
    }
}

// Reads what a letter says, and returns the data that is left.
fn read_letter<'a>(
    letter: Letter,
    bytes: &'a [u8],
    augmentation: &mut Augmentation,
) -> Result<&'a [u8], CfiError>
    ensures found { IfOk result (λ rest.
        LetterAt letter bytes.now augmentation.old augmentation.new rest.now) }
    ensures none { OnErr result (NoLetter letter bytes.now augmentation.old) }
{
    match letter {
        Letter::Language => skip(bytes, 1),
        Letter::Personality => skip_personality(bytes),
        Letter::PointerEncoding => {
            let (encoding, rest) = read_byte(bytes)?;
            augmentation.pointer_encoding = encoding;
            Ok(rest)
        }
        Letter::SignalFrame => {
            augmentation.is_signal = true;
            Ok(bytes)
        }
        Letter::PointerKey => Ok(bytes),
    }
}

// What the letters after `z` say with the augmentation data, up to the first unknown letter.
fn read_letters(letters: &[u8], block: &[u8]) -> Result<Augmentation, CfiError>
    ensures found { IfOk result (λ a. LettersAt letters.now block.now some_augmentation a) }
    ensures none { OnErr result (NoLetters letters.now block.now some_augmentation) }
{
    let mut augmentation = Augmentation {
        has_data: true,
        pointer_encoding: 0,
        is_signal: false,
    };
    let mut rest = block;
    'letters: for byte in letters {
        match augmentation_letter(*byte) {
            Some(letter) => rest = read_letter(letter, rest, &mut augmentation)?,
            None => return Ok(augmentation),
        }
    }
    Ok(augmentation)
}

// Reads the augmentation data for an augmentation, and returns what it says with the rest.
fn read_augmentation<'a>(
    string: &[u8],
    bytes: &'a [u8],
) -> Result<(Augmentation, &'a [u8]), CfiError>
    ensures found { IfOk result (λ x. AugmentationAt string.now bytes.now x.0 x.1.now) }
    ensures none { OnErr result (NoAugmentation string.now bytes.now) }
    ensures shorter { IfOk result (λ x. length x.1.now ≤ length bytes.now) }
{
    match string {
        [] => {
            let augmentation = Augmentation {
                has_data: false,
                pointer_encoding: 0,
                is_signal: false,
            };
            Ok((augmentation, bytes))
        }
        [b'z', letters @ ..] => {
            let (data, rest) = read_block(bytes)?;
            let augmentation = read_letters(letters, data)?;
            Ok((augmentation, rest))
        }
        _ => Err(CfiError::Augmentation),
    }
}

// Reads the number of the return address register, and returns it with the rest.
fn read_return_address(version: u8, bytes: &[u8]) -> Result<(u64, &[u8]), CfiError>
    ensures found { IfOk result (λ x. ReturnAddressAt version bytes.now x.0 x.1.now) }
    ensures none { OnErr result (NoReturnAddress version bytes.now) }
    ensures shorter { IfOk result (λ x. length x.1.now ≤ length bytes.now) }
{
    if version == 1 {
        let (register, rest) = read_byte(bytes)?;
        Ok((register as u64, rest))
    } else {
        read_uleb128(bytes)
    }
}

// Reads the version and the augmentation, and returns them with the rest.
fn read_version(body: &[u8]) -> Result<(u8, &[u8], &[u8]), CfiError>
    ensures found { IfOk result (λ x. VersionAt body.now x.0 x.1.now x.2.now) }
    ensures none { OnErr result (NoVersion body.now) }
    ensures shorter { IfOk result (λ x. length x.2.now ≤ length body.now) }
{
    let (version, after_version) = read_byte(body)?;
    if version != 1 && version != 3 && version != 4 {
        return Err(CfiError::Version(version));
    }
    let (string, after_string) = read_string(after_version)?;
    let rest = skip_sizes(version, after_string)?;
    Ok((version, string, rest))
}

// Reads the CIE that an entry is.
pub(crate) fn read_cie(entry: &CfiEntry<'_>) -> Result<Cie, CfiError>
    requires { length entry.now.body.now ≤ entry.now.end }
    ensures found { IfOk result (λ c. CieAt entry.now c) }
    ensures none { OnErr result (NoCie entry.now) }
{
    let (version, string, after_sizes) = read_version(entry.body)?;
    let (code_factor, after_code) = read_uleb128(after_sizes)?;
    let (data_factor, after_data) = read_sleb128(after_code)?;
    let (return_address, after_register) = read_return_address(version, after_data)?;
    let (augmentation, rest) = read_augmentation(string, after_register)?;
    Ok(Cie {
        offset: entry.offset,
        code_factor,
        data_factor,
        return_address,
        augmentation,
        instructions: ByteRange {
            start: entry.end - rest.len(),
            end: entry.end,
        },
    })
}
