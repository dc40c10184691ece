//! One client of a world, which is up or down.
ghost use Rattle.std.specs.Prelude.{◌≡◌, ◌≤◌, ◌<◌, ◌+◌, ◌^◌, ℕ, List, IfOk, None};
ghost use Rattle.bcv_base.specs.Numbered.{Counter};
ghost use Rattle.bcv_base.specs.declared.log.Entry.{Entry};
ghost use Rattle.bcv_keeprule.specs.Retention.{IsKeepRule};
ghost use Rattle.bcv_clientlog.specs.LogParts.{log_disk};
ghost use Rattle.bcv_client.specs.AskCalls.{AskInForm, taken_with};
ghost use Rattle.bcv_client.specs.InForm.{IsClient};
ghost use Rattle.bcv_world.specs.AskedOnce.{AskedOnce};
ghost use Rattle.bcv_world.specs.EventCaching.{ActCaches, AsksPlace, HasNone, open_in};
ghost use Rattle.bcv_world.specs.LineEvents.{ActInForm};
ghost use Rattle.bcv_world.specs.SetTroubles.{SetsTrouble, crashed};
ghost use Rattle.bcv_world.specs.Standing.{IsNewUp, PlaceActs};
ghost use Rattle.bcv_world.specs.UpReplies.{down_reply, up_reply};
ghost use Rattle.bcv_world.specs.WorldForm.{PlaceInForm, PlaceWithin, taken_in};
ghost use Rattle.bcv_world.specs.declared.place.Place.TheVariants as place;
ghost use Rattle.bcv_memstore.specs.Told.{log_of};
ghost use Rattle.bcv_model.specs.declared.event.Act.TheVariants as act;

use bcv_base::{CountNames, Outcome, Outside, SetClock};
use bcv_client::{Client, Up};
use bcv_disk::{DiskEnd, MemDisk, Planned};
use bcv_keeprule::KeepRule;
use bcv_memstore::MemStore;
use bcv_model::{Act, Ask, Reply};
use bcv_risen::RiseFault;
use std::alloc::{AllocError, Global};

/// What all clients of a world reach.
pub(crate) type Around = Outside<MemStore, SetClock, CountNames>;

/// A client that is up, or the disk of one that is down.
#[derive(Drop)]
pub(crate) enum Place {
    Up(Client<MemDisk>),
    Down(MemDisk),
}

impl Place {
    /// Brings up a client over an empty disk.
    pub(crate) fn new(
        alloc: Global,
        names: &mut CountNames,
        slots: u16,
    ) -> Result<Place, AllocError>
        requires few { names.old.count < 2 ^ 127 }
        ensures within { IfOk result (PlaceWithin 0) }
        ensures is_new { IfOk result (λ p. IsNewUp names.old names.new slots p) }
    {
        match Client::up(alloc, MemDisk::new(alloc), names, slots) {
            Up::Ready(client) => Ok(Place::Up(client)),
            Up::Refused(_, _) => Err(AllocError),
        }
    }

    /// Applies what happens to the client, and returns its place with its reply.
    pub(crate) fn act<F: Fn(u64, u64, u64) -> bool>(
        self,
        alloc: Global,
        around: &mut Around,
        rule: &KeepRule<F>,
        slots: u16,
        act: Act,
    ) -> (Place, Reply)
        requires form { PlaceInForm self }
        requires act { ActInForm (taken_in self) act }
        requires rule { IsKeepRule (F.pre rule.now.rule) (F.post rule.now.rule) }
        ensures within { PlaceWithin (taken_in self + 1) result.0 }
        ensures acts { PlaceActs (log_of around.old.store) (log_of around.new.store)
            around.old.names around.new.names around.old.clock.moment slots self result.0 act
            result.1 }
        ensures sets { SetsTrouble act self result.0 }
        ensures caches { ActCaches around.old.store around.new.store act self result.0 result.1 }
    {
        match self {
            Place::Up(client) => act_up(alloc, around, rule, client, act),
            Place::Down(disk) => match act {
                Act::Up => come_up(alloc, around, disk, slots),
                _ => (Place::Down(disk), Reply::Down),
            },
        }
    }
}

// Applies what happens to a client that is up.
fn act_up<F: Fn(u64, u64, u64) -> bool>(
    alloc: Global,
    around: &mut Around,
    rule: &KeepRule<F>,
    mut client: Client<MemDisk>,
    act: Act,
) -> (Place, Reply)
    requires form { IsClient client }
    requires act { ActInForm client.taken act }
    requires rule { IsKeepRule (F.pre rule.now.rule) (F.post rule.now.rule) }
    ensures within { PlaceWithin (client.taken + 1) result.0 }
    ensures acts { (slots : ℕ) → PlaceActs (log_of around.old.store) (log_of around.new.store)
        around.old.names around.new.names around.old.clock.moment slots (place.Up client) result.0
        act result.1 }
    ensures sets { SetsTrouble act (place.Up client) result.0 }
    ensures caches { ActCaches around.old.store around.new.store act (place.Up client) result.0
        result.1 }
{
    match act {
        Act::Ask(ask, outcome) => ask_up(alloc, around, rule, client, ask, outcome),
        Act::Up => (Place::Up(client), Reply::IsUp),
        Act::Crash { image } => crash(client, image),
        Act::Fuse { calls, image } => {
            client.fuse(calls, image);
            (Place::Up(client), Reply::Fine)
        }
        Act::FailAt { calls } => {
            client.fail(calls);
            (Place::Up(client), Reply::Fine)
        }
    }
}

// Asks a client that is up. It is down where a fuse has burnt its disk meanwhile.
fn ask_up<F: Fn(u64, u64, u64) -> bool>(
    alloc: Global,
    around: &mut Around,
    rule: &KeepRule<F>,
    mut client: Client<MemDisk>,
    ask: Ask,
    outcome: Outcome,
) -> (Place, Reply)
    requires form { IsClient client }
    requires ask { AskInForm client.taken ask }
    requires rule { IsKeepRule (F.pre rule.now.rule) (F.post rule.now.rule) }
    ensures within { PlaceWithin (client.taken + 1) result.0 }
    ensures acts { (slots : ℕ) → PlaceActs (log_of around.old.store) (log_of around.new.store)
        around.old.names around.new.names around.old.clock.moment slots (place.Up client) result.0
        (act.Ask ask outcome) result.1 }
    ensures caches { AsksPlace around.old.store around.new.store ask outcome (place.Up client)
        result.0 result.1 }
{
    let reply = ask_once(alloc, around, rule, &mut client, ask, outcome);
    let burnt = client.burnt();
    if burnt {
        return (Place::Down(client.down()), Reply::Crashed);
    }
    (Place::Up(client), reply)
}

// Asks with the outcome that is planned for its one request. What is not used is gone after it.
fn ask_once<F: Fn(u64, u64, u64) -> bool>(
    alloc: Global,
    around: &mut Around,
    rule: &KeepRule<F>,
    client: &mut Client<MemDisk>,
    ask: Ask,
    outcome: Outcome,
) -> Reply
    requires form { IsClient client.old }
    requires ask { AskInForm client.old.taken ask }
    requires rule { IsKeepRule (F.pre rule.now.rule) (F.post rule.now.rule) }
    ensures form { IsClient client.new }
    ensures taken { client.new.taken ≡ taken_with ask client.old.taken }
    ensures once { AskedOnce (log_of around.old.store) (log_of around.new.store) around.old.names
        around.new.names around.old.clock.moment client.old client.new ask outcome result }
    ensures caches { AsksPlace around.old.store around.new.store ask outcome
        (place.Up client.old) (place.Up client.new) result }
{
    around.store.plan(outcome);
    let reply = client.call(alloc, ask, around, rule);
    // Names fail only once all of them are drawn.
    let _ = around.names.faults();
    around.store.plan(Outcome::Ok);
    reply
}

// Takes the client down, and crashes its disk.
fn crash(client: Client<MemDisk>, image: u8) -> (Place, Reply)
    requires image { image < 5 }
    ensures within { PlaceWithin 0 result.0 }
    ensures acts { (log : List Entry) (names : Counter) (moment slots : ℕ)
        → PlaceActs log log names names moment slots (place.Up client) result.0 (act.Crash image)
        result.1 }
    ensures caches { open_in result.0 ≡ None }
    ensures left { result.0 ≡ place.Down (crashed image (log_disk client.ledger.log)) }
{
    let mut disk = client.down();
    let reply = match disk.crash(image) {
        DiskEnd::Done => Reply::Crashed,
        DiskEnd::Failed => Reply::DiskFault,
        DiskEnd::NoMemory => Reply::NoMemory,
    };
    (Place::Down(disk), reply)
}

// Brings up the client of a disk.
fn come_up(alloc: Global, around: &mut Around, mut disk: MemDisk, slots: u16) -> (Place, Reply)
    ensures within { PlaceWithin 0 result.0 }
    ensures acts { PlaceActs (log_of around.old.store) (log_of around.new.store)
        around.old.names around.new.names around.old.clock.moment slots (place.Down disk) result.0
        act.Up result.1 }
    ensures caches { HasNone (open_in result.0) }
    ensures store { around.new.store ≡ around.old.store }
{
    disk.mend();
    match Client::up(alloc, disk, &mut around.names, slots) {
        Up::Ready(client) => {
            let reply = up_again(client.list(alloc));
            (Place::Up(client), reply)
        }
        Up::Refused(disk, fault) => {
            let reply = refused_up(disk.burnt(), fault);
            (Place::Down(disk), reply)
        }
    }
}

// The reply of a client that came up, by its table. A client shows its table, or memory is missing for it.
fn up_again(table: Reply) -> Reply
    ensures { result ≡ up_reply table }
{
    match table {
        Reply::Table { rows, pending } => Reply::UpAgain { rows, pending },
        _ => Reply::NoMemory,
    }
}

// The reply of a client that did not come up: a fuse that has burnt its disk is a crash.
fn refused_up(burnt: bool, fault: RiseFault) -> Reply
    ensures { result ≡ down_reply burnt fault }
{
    if burnt {
        return Reply::Crashed;
    }
    match fault {
        RiseFault::NotJournal(place) => Reply::NotJournal(place),
        RiseFault::DiskFault => Reply::DiskFault,
        RiseFault::NamesFault => Reply::NamesFault,
        RiseFault::NoMemory => Reply::NoMemory,
    }
}
