//! Single fields: a value and the bytes after it.

ghost use Rattle.std.specs.Prelude.{◌≡◌, ◌<◌, length};
ghost use Rattle.std.specs.Int.{w32, w64};
ghost use Rattle.bcv_proto.specs.Fields.{Gives, bytes_at, number_at, bounded_at, least, name_at, is_name_front, kind_at};

use crate::kind::Kind;
use crate::stop::Stop;
use bcv_base::DbName;

fn array_of<const N: usize>(bytes: &[u8]) -> Result<(&[u8; N], &[u8]), Stop>
    ensures { Gives (λ x. (x.0.now, x.1.now)) result (bytes_at N bytes.now) }
{
    match bytes.split_first_chunk::<N>() {
        Some((field, rest)) => Ok((field, rest)),
        None => Err(Stop::Cut),
    }
}

pub(crate) fn u32_of(bytes: &[u8]) -> Result<(u32, &[u8]), Stop>
    ensures { Gives (λ x. (x.0, x.1.now)) result (number_at w32 bytes.now) }
{
    let (field, rest) = array_of::<4>(bytes)?;
    Ok((u32::from_be_bytes(*field), rest))
}

pub(crate) fn u64_of(bytes: &[u8]) -> Result<(u64, &[u8]), Stop>
    ensures { Gives (λ x. (x.0, x.1.now)) result (number_at w64 bytes.now) }
{
    let (field, rest) = array_of::<8>(bytes)?;
    Ok((u64::from_be_bytes(*field), rest))
}

// The least number whose four bytes begin so.
fn least(cut: &[u8]) -> u32
    requires { length cut.now < 4 }
    ensures { result ≡ least cut.now }
{
    let mut field = [0; 4];
    field[..cut.len()].copy_from_slice(cut);
    u32::from_be_bytes(field)
}

/// A number of four bytes within bounds. One that is cut is refused as soon as it must be above them.
pub(crate) fn bounded_of(low: u32, most: u32, bytes: &[u8]) -> Result<(u32, &[u8]), Stop>
    ensures { Gives (λ x. (x.0, x.1.now)) result (bounded_at low most bytes.now) }
{
    if bytes.len() < 4 {
        if least(bytes) <= most {
            return Err(Stop::Cut);
        }
        return Err(Stop::Bad);
    }
    let (number, rest) = u32_of(bytes)?;
    if number < low || number > most {
        return Err(Stop::Bad);
    }
    Ok((number, rest))
}

// Whether a name may begin so.
fn begins_name(cut: &[u8]) -> bool
    ensures { result ≡ is_name_front cut.now }
{
    cut.is_empty() || DbName::read(cut).is_some()
}

/// A name of so many bytes. One that is cut is refused as soon as no name begins so.
pub(crate) fn name_of(len: usize, bytes: &[u8]) -> Result<(DbName, &[u8]), Stop>
    ensures { Gives (λ x. (x.0, x.1.now)) result (name_at len bytes.now) }
{
    if bytes.len() < len {
        if begins_name(bytes) {
            return Err(Stop::Cut);
        }
        return Err(Stop::Bad);
    }
    let (text, rest) = bytes.split_at(len);
    match DbName::read(text) {
        Some(name) => Ok((name, rest)),
        None => Err(Stop::Bad),
    }
}

/// A kind of a message that has so many bytes after its length.
pub(crate) fn kind_of(len: u32, bytes: &[u8]) -> Result<(Kind, &[u8]), Stop>
    ensures { Gives (λ x. (x.0, x.1.now)) result (kind_at len bytes.now) }
{
    let Some((number, rest)) = bytes.split_first() else {
        return Err(Stop::Cut);
    };
    match Kind::of(*number) {
        Some(kind) if kind.has_length(len) => Ok((kind, rest)),
        _ => Err(Stop::Bad),
    }
}
