//! How a command ends by the last reply.
ghost use Rattle.std.specs.Prelude.{◌≡◌, true, IfSome};
ghost use Rattle.bcv_commands.specs.declared.status.Status.TheVariants.{BadStore};
ghost use Rattle.bcv_runner.specs.Endings.{ending_of, is_clients, is_success, status_of, stop_of, up_ending};

use bcv_base::Seq;
use bcv_client::UpFault;
use bcv_commands::{Status, What};
use bcv_model::Reply;

/// How a command ends, before its output is written.
#[derive(Drop)]
pub enum Ending {
    /// With the reply that was asked for.
    Replied(Reply),
    /// With a refusal.
    Refused(Reply),
    /// With the bytes that were read.
    Read(Seq<u8>),
    /// With a status alone.
    Stopped(Status),
}

// How a command ends whose last reply this is, by whether its resolve was asked for.
pub fn ended(resolves: bool, reply: Reply) -> Ending
    ensures ending { result ≡ ending_of resolves reply }
    ensures inside { is_clients (status_of result) ≡ true }
{
    if let Some(status) = stop_of(&reply) {
        return Ending::Stopped(status);
    }
    if is_success(resolves, &reply) {
        return Ending::Replied(reply);
    }
    Ending::Refused(reply)
}

// The status of a reply that is a fault, or of which it is not known what became, or that shows a bad store.
fn stop_of(reply: &Reply) -> Option<Status>
    ensures stop { result ≡ stop_of reply.now }
    ensures inside { IfSome result (λ s. is_clients s ≡ true) }
{
    match reply {
        Reply::StoreFault => Some(Status::StoreFault),
        Reply::DiskFault => Some(Status::DiskFault),
        Reply::NamesFault => Some(Status::NamesFault),
        Reply::ClockFault => Some(Status::ClockFault),
        Reply::NoMemory => Some(Status::NoMemory),
        Reply::Unknown(id) => Some(Status::Unknown(*id)),
        Reply::BadManifest { at } => Some(bad_store(What::Manifest, *at)),
        Reply::BadBlock { len } => Some(bad_store(What::Block, *len)),
        Reply::NotJournal(at) => Some(bad_store(What::Journal, *at)),
        _ => None,
    }
}

// What of the store or of the journal is bad, and at which place.
fn bad_store(what: What, at: u64) -> Status
    ensures { result ≡ BadStore what at }
{
    Status::BadStore { what, at }
}

// Whether a reply is what was asked for.
fn is_success(resolves: bool, reply: &Reply) -> bool
    ensures { result ≡ is_success resolves reply.now }
{
    match reply {
        Reply::Fine
        | Reply::Done(_)
        | Reply::Polled(_)
        | Reply::Cleaned { .. }
        | Reply::Resolved(_)
        | Reply::Table { .. } => true,
        Reply::Voided => resolves,
        _ => false,
    }
}

// How a command ends whose client does not come up.
pub fn up_ending(fault: UpFault) -> Ending
    ensures ending { result ≡ up_ending fault }
    ensures inside { is_clients (status_of result) ≡ true }
{
    match fault {
        UpFault::NotJournal(at) => Ending::Stopped(bad_store(What::Journal, at)),
        UpFault::DiskFault => Ending::Stopped(Status::DiskFault),
        UpFault::NamesFault => Ending::Stopped(Status::NamesFault),
        UpFault::NoMemory => Ending::Stopped(Status::NoMemory),
    }
}
