//! Single fields: a value and the bytes after it.

ghost use Rattle.std.specs.Prelude.{◌≡◌, ◌&&◌, length, nat_le};
ghost use Rattle.std.specs.Int.{w8, w32, w64};
ghost use Rattle.bcv_base.specs.Names.{is_name};
ghost use Rattle.bcv_base.specs.ManifestGrammar.{such, bytes_at, number_at, id_at};
ghost use Rattle.bcv_base.specs.ManifestRules.{is_block_size};
ghost use Rattle.bcv_notes.specs.NoteGrammar.{front, name_at};
ghost use Rattle.bcv_notes.specs.Reading.{Yields};

use crate::stop::Stop;
use bcv_base::{DbName, Id16};

pub(crate) fn array_of<const N: usize>(bytes: &[u8]) -> Result<(&[u8; N], &[u8]), Stop>
    ensures { Yields (λ x. (x.0.now, x.1.now)) result (front (bytes_at N bytes.now)) }
{
    match bytes.split_first_chunk::<N>() {
        Some((field, rest)) => Ok((field, rest)),
        None => Err(Stop::NoNote),
    }
}

pub(crate) fn byte_of(bytes: &[u8]) -> Result<(u8, &[u8]), Stop>
    ensures { Yields (λ x. (x.0, x.1.now)) result (front (number_at w8 bytes.now)) }
{
    let (field, rest) = array_of::<1>(bytes)?;
    Ok((field[0], rest))
}

pub(crate) fn u32_of(bytes: &[u8]) -> Result<(u32, &[u8]), Stop>
    ensures { Yields (λ x. (x.0, x.1.now)) result (front (number_at w32 bytes.now)) }
{
    let (field, rest) = array_of::<4>(bytes)?;
    Ok((u32::from_be_bytes(*field), rest))
}

pub(crate) fn u64_of(bytes: &[u8]) -> Result<(u64, &[u8]), Stop>
    ensures { Yields (λ x. (x.0, x.1.now)) result (front (number_at w64 bytes.now)) }
{
    let (field, rest) = array_of::<8>(bytes)?;
    Ok((u64::from_be_bytes(*field), rest))
}

pub(crate) fn id_of(bytes: &[u8]) -> Result<(Id16, &[u8]), Stop>
    ensures { Yields (λ x. (x.0, x.1.now)) result (front (id_at bytes.now)) }
{
    let (field, rest) = array_of::<16>(bytes)?;
    Ok((Id16(*field), rest))
}

/// So many bytes.
pub(crate) fn bytes_of(len: usize, bytes: &[u8]) -> Result<(&[u8], &[u8]), Stop>
    ensures { Yields (λ x. (x.0.now, x.1.now)) result (front (bytes_at len bytes.now)) }
{
    if bytes.len() < len {
        return Err(Stop::NoNote);
    }
    Ok(bytes.split_at(len))
}

/// A version's number, from 1 on.
pub(crate) fn version_of(bytes: &[u8]) -> Result<(u64, &[u8]), Stop>
    ensures { Yields (λ x. (x.0, x.1.now)) result
        (front (such (number_at w64) (nat_le 1) bytes.now)) }
{
    let (number, rest) = u64_of(bytes)?;
    if number < 1 {
        return Err(Stop::NoNote);
    }
    Ok((number, rest))
}

fn is_block_size(size: u32) -> bool
    ensures { result ≡ is_block_size size }
{
    512 <= size && size <= 16_777_216 && size.is_power_of_two()
}

/// The size of blocks in bytes.
pub(crate) fn block_size_of(bytes: &[u8]) -> Result<(u32, &[u8]), Stop>
    ensures { Yields (λ x. (x.0, x.1.now)) result
        (front (such (number_at w32) is_block_size bytes.now)) }
{
    let (block, rest) = u32_of(bytes)?;
    if !is_block_size(block) {
        return Err(Stop::NoNote);
    }
    Ok((block, rest))
}

// A name of so many bytes.
fn name_text_of(len: usize, bytes: &[u8]) -> Result<(DbName, &[u8]), Stop>
    ensures { Yields (λ x. (x.0, x.1.now)) result (front (such (bytes_at len) is_name bytes.now)) }
{
    let (text, rest) = bytes_of(len, bytes)?;
    match DbName::read(text) {
        Some(name) => Ok((name, rest)),
        None => Err(Stop::NoNote),
    }
}

/// A name after its length.
pub(crate) fn name_of(bytes: &[u8]) -> Result<(DbName, &[u8]), Stop>
    ensures { Yields (λ x. (x.0, x.1.now)) result (name_at bytes.now) }
{
    let (len, rest) = byte_of(bytes)?;
    name_text_of(len as usize, rest)
}
