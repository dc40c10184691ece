//! Single fields: a value and the bytes after it.

ghost use Rattle.std.specs.Prelude.{◌≡◌, ◌≤◌, ◌&&◌, length, Ok, nat_le};
ghost use Rattle.std.specs.Int.{w8, w32, w64};
ghost use Rattle.std.specs.Str.{bytes_eq};
ghost use Rattle.bcv_base.specs.Names.{is_name};
ghost use Rattle.bcv_base.specs.ManifestGrammar.{such, bytes_at, number_at, id_at, is_above};
ghost use Rattle.bcv_base.specs.ManifestText.{magic};
ghost use Rattle.bcv_manifest.specs.Reading.{Gives};

use crate::fault::Stop;
use crate::rules::is_name_above;
use bcv_base::{DbName, Id16};

pub(crate) const MAGIC: [u8; 8] = *b"BCVMAN01";

pub(crate) fn array_of<const N: usize>(bytes: &[u8]) -> Result<(&[u8; N], &[u8]), Stop>
    ensures { Gives (λ x. (x.0.now, x.1.now)) result (bytes_at N bytes.now) }
{
    match bytes.split_first_chunk::<N>() {
        Some((field, rest)) => Ok((field, rest)),
        None => Err(Stop::at(bytes)),
    }
}

pub(crate) fn u32_of(bytes: &[u8]) -> Result<(u32, &[u8]), Stop>
    ensures { Gives (λ x. (x.0, x.1.now)) result (number_at w32 bytes.now) }
{
    let (field, rest) = array_of::<4>(bytes)?;
    Ok((u32::from_be_bytes(*field), rest))
}

pub(crate) fn u64_of(bytes: &[u8]) -> Result<(u64, &[u8]), Stop>
    ensures { Gives (λ x. (x.0, x.1.now)) result (number_at w64 bytes.now) }
{
    let (field, rest) = array_of::<8>(bytes)?;
    Ok((u64::from_be_bytes(*field), rest))
}

pub(crate) fn id_of(bytes: &[u8]) -> Result<(Id16, &[u8]), Stop>
    ensures { Gives (λ x. (x.0, x.1.now)) result (id_at bytes.now) }
{
    let (field, rest) = array_of::<16>(bytes)?;
    Ok((Id16(*field), rest))
}

/// The bytes after the magic.
pub(crate) fn after_magic(bytes: &[u8]) -> Result<&[u8], Stop>
    ensures { Gives (λ rest. (magic, rest.now)) result
        (such (bytes_at 8) (λ k. bytes_eq k magic) bytes.now) }
{
    let (field, rest) = array_of::<8>(bytes)?;
    if *field != MAGIC {
        return Err(Stop::at(bytes));
    }
    Ok(rest)
}

/// A number from 1 on.
pub(crate) fn version_of(bytes: &[u8]) -> Result<(u64, &[u8]), Stop>
    ensures { Gives (λ x. (x.0, x.1.now)) result (such (number_at w64)
        (λ n. nat_le 1 n) bytes.now) }
{
    let (number, rest) = u64_of(bytes)?;
    if number < 1 {
        return Err(Stop::at(bytes));
    }
    Ok((number, rest))
}

/// A number from 1 to the most.
pub(crate) fn number_of(most: u64, bytes: &[u8]) -> Result<(u64, &[u8]), Stop>
    ensures { Gives (λ x. (x.0, x.1.now)) result (such (number_at w64)
        (λ n. nat_le 1 n && nat_le n most) bytes.now) }
{
    let (number, rest) = u64_of(bytes)?;
    if number < 1 || number > most {
        return Err(Stop::at(bytes));
    }
    Ok((number, rest))
}

/// A count of at most so many.
pub(crate) fn count_of(most: u32, bytes: &[u8]) -> Result<(u32, &[u8]), Stop>
    ensures { Gives (λ x. (x.0, x.1.now)) result (such (number_at w32)
        (λ n. nat_le n most) bytes.now) }
{
    let (count, rest) = u32_of(bytes)?;
    if count > most {
        return Err(Stop::at(bytes));
    }
    Ok((count, rest))
}

/// The length of a name.
pub(crate) fn name_len_of(bytes: &[u8]) -> Result<(u8, &[u8]), Stop>
    ensures { Gives (λ x. (x.0, x.1.now)) result (such (number_at w8)
        (λ n. nat_le 1 n && nat_le n 64) bytes.now) }
{
    let (field, rest) = array_of::<1>(bytes)?;
    let len = field[0];
    if len < 1 || len > 64 {
        return Err(Stop::at(bytes));
    }
    Ok((len, rest))
}

/// A name of so many bytes, above the one before it.
pub(crate) fn name_of(
    len: u8,
    before: Option<DbName>,
    bytes: &[u8],
) -> Result<(DbName, &[u8]), Stop>
    ensures { Gives (λ x. (x.0, x.1.now)) result (such (bytes_at len)
        (λ k. is_name k && is_above before k) bytes.now) }
{
    let len = len as usize;
    if bytes.len() < len {
        return Err(Stop::at(bytes));
    }
    let (text, rest) = bytes.split_at(len);
    let Some(name) = DbName::read(text) else {
        return Err(Stop::at(bytes));
    };
    if !is_name_above(before, &name) {
        return Err(Stop::at(bytes));
    }
    Ok((name, rest))
}
