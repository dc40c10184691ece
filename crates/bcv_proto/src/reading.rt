ghost use Rattle.std.specs.Prelude.{◌≡◌, true};
ghost use Rattle.bcv_proto.specs.Fields.{Gives, fields_at, message_at, parsed_of, has_length};
ghost use Rattle.bcv_proto.specs.Messages.{Reads};

use crate::fields::{bounded_of, kind_of, name_of, u32_of, u64_of};
use crate::kind::Kind;
use crate::message::{Message, Parsed};
use crate::stop::Stop;

const LEAST_LENGTH: u32 = 5;

const MOST_LENGTH: u32 = 69;

const MOST_READ: u32 = 16_777_216;

// A message of a kind from its fields on, which were told to have this length with what stands before them.
#[tactic(auto, unfolding(crate::specs::Fields::fields_at))]
fn fields_of(kind: Kind, len: u32, session: u32, bytes: &[u8]) -> Result<(Message, &[u8]), Stop>
    requires { has_length kind len ≡ true }
    ensures { Gives (λ x. (x.0, x.1.now)) result (fields_at kind len session bytes.now) }
{
    match kind {
        Kind::Poll => Ok((Message::Poll { session }, bytes)),
        Kind::Begin => match name_of(len as usize - 5, bytes) {
            Ok((db, rest)) => Ok((Message::Begin { session, db }, rest)),
            Err(stop) => Err(stop),
        },
        Kind::Read => {
            let (off, rest) = u64_of(bytes)?;
            let (len, rest) = bounded_of(0, MOST_READ, rest)?;
            Ok((Message::Read { session, off, len }, rest))
        }
        Kind::End => Ok((Message::End { session }, bytes)),
        Kind::List => Ok((Message::List { session }, bytes)),
        Kind::Hold => {
            let (page, rest) = u32_of(bytes)?;
            Ok((Message::Hold { session, page }, rest))
        }
        Kind::Look => {
            let (page, rest) = u32_of(bytes)?;
            Ok((Message::Look { session, page }, rest))
        }
        Kind::Free => {
            let (page, rest) = u32_of(bytes)?;
            Ok((Message::Free { session, page }, rest))
        }
    }
}

#[tactic(auto, unfolding(crate::specs::Fields::message_at))]
fn message_of(bytes: &[u8]) -> Result<(Message, &[u8]), Stop>
    ensures { Gives (λ x. (x.0, x.1.now)) result (message_at bytes.now) }
{
    let (len, rest) = bounded_of(LEAST_LENGTH, MOST_LENGTH, bytes)?;
    let (kind, rest) = kind_of(len, rest)?;
    let (session, rest) = u32_of(rest)?;
    fields_of(kind, len, session, rest)
}

#[tactic(auto, unfolding(crate::specs::Fields::parsed_of))]
fn front_of(bytes: &[u8]) -> Parsed
    ensures { result ≡ parsed_of bytes.now }
{
    match message_of(bytes) {
        Ok((message, rest)) => Parsed::Whole(message, bytes.len().saturating_sub(rest.len())),
        Err(Stop::Cut) => Parsed::Short,
        Err(Stop::Bad) => Parsed::Bad,
    }
}

/// Tells what stands at the front of an input. Bytes are bad as soon as no message can begin with them, so also where a
/// length lies. Takes no memory.
pub fn read_message(bytes: &[u8]) -> Parsed
    ensures reads { Reads bytes.now result }
    ensures parsed { result ≡ parsed_of bytes.now }
{
    front_of(bytes)
}
