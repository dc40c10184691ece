//! The world, and the events of a script.
ghost use Rattle.std.specs.Prelude.{◌≡◌, ℕ, ◌+◌, ◌^◌, ◌<◌, ◌≤◌, IfOk, OnOk};
ghost use Rattle.bcv_base.specs.Log.{put_count};
ghost use Rattle.bcv_base.specs.declared.object.ObjName.TheVariants as object;
ghost use Rattle.bcv_keeprule.specs.Retention.{IsKeepRule};
ghost use Rattle.bcv_memstore.specs.Told.{log_of};
ghost use Rattle.bcv_world.specs.EventCaching.{EventCaches};
ghost use Rattle.bcv_world.specs.FirstPlaces.{FirstPlaces};
ghost use Rattle.bcv_world.specs.LineEvents.{IsSpec, Keeps, KeepsAct};
ghost use Rattle.bcv_world.specs.SetTroubles.{SetsAsTold};
ghost use Rattle.bcv_world.specs.Standing.{IsFirst, TakesEvent};
ghost use Rattle.bcv_world.specs.Tallies.{IsTally, tallied};
ghost use Rattle.bcv_world.specs.WorldForm.{HasPlaces, IsWorld, PlaceWithin, last_of_more};
ghost use Rattle.bcv_model.specs.declared.event.Event.TheVariants as event;

use crate::place::{Around, Place};
use crate::tally::Tally;
use bcv_base::{CountNames, Outside, SetClock};
use bcv_keeprule::KeepRule;
use bcv_memstore::MemStore;
use bcv_model::{Act, Event, Reply, Said, WorldSpec};
use bcv_slots::{Slot, add, numbers_differ, take};
use std::alloc::{AllocError, Global};

/// A store in memory and its clients.
#[derive(Drop)]
pub struct World {
    spec: WorldSpec,
    around: Around,
    moment: u64,
    // The place of each client, under its number from 1.
    places: Vec<Slot<Place>>,
    tally: Tally,
}

impl World {
    /// Makes a world in its first state: an empty store at the moment 0, and every client up over an empty disk, brought up
    /// in order.
    pub fn new(alloc: Global, spec: &WorldSpec) -> Result<World, AllocError>
        requires sizes { IsSpec spec.now }
        requires clients { spec.now.clients ≤ 16 }
        ensures world { IfOk result (λ w. IsWorld w) }
        ensures spec { IfOk result (λ w. w.spec ≡ spec.now) }
        ensures tally { IfOk result (λ w. w.tally.events ≡ 0) }
        ensures first { IfOk result IsFirst }
    {
        let mut names = CountNames::new();
        let places = first_places(alloc, &mut names, spec)?;
        Ok(World {
            spec: *spec,
            around: Outside {
                store: MemStore::new(alloc),
                clock: SetClock::new(0),
                names,
            },
            moment: 0,
            places,
            tally: Tally::new(),
        })
    }

    /// The store, by whose log the versions can be counted.
    pub fn store(&self) -> &MemStore
        ensures { result.now ≡ self.now.around.store }
    {
        &self.around.store
    }

    /// What its first line fixed.
    pub fn spec(&self) -> &WorldSpec
        ensures { result.now ≡ self.now.spec }
    {
        &self.spec
    }

    /// How many events were applied.
    pub fn applied(&self) -> u64
        ensures { result ≡ self.now.tally.events }
    {
        self.tally.events
    }

    /// How many events were applied, and what their replies were.
    pub fn tally(&self) -> Tally
        ensures { result ≡ self.now.tally }
    {
        self.tally
    }

    /// Applies an event of a script's line, and returns what is said of it. Fewer than 2^63 events were applied before.
    pub fn apply<F: Fn(u64, u64, u64) -> bool>(
        &mut self,
        alloc: Global,
        event: Event,
        rule: &KeepRule<F>,
    ) -> Said
        requires world { IsWorld self.old }
        requires few { self.old.tally.events < 2 ^ 63 }
        requires keeps { Keeps self.old.spec event }
        requires rule { IsKeepRule (F.pre rule.now.rule) (F.post rule.now.rule) }
        ensures world { IsWorld self.new }
        ensures spec { self.new.spec ≡ self.old.spec }
        ensures tally { self.new.tally ≡ tallied self.old.tally result }
        ensures takes { TakesEvent self.old self.new event result }
        ensures sets { SetsAsTold self.old self.new event }
        ensures caches { EventCaches self.old self.new event result.reply }
    {
        match event {
            Event::Tick(seconds) => self.tick(seconds),
            Event::Of { client, act } => self.act(alloc, u64::from(client), act, rule),
        }
    }

    // Lets time go on.
    fn tick(&mut self, seconds: u64) -> Said
        requires world { IsWorld self.old }
        requires few { self.old.tally.events < 2 ^ 63 }
        ensures world { IsWorld self.new }
        ensures spec { self.new.spec ≡ self.old.spec }
        ensures tally { self.new.tally ≡ tallied self.old.tally result }
        ensures takes { TakesEvent self.old self.new (event.Tick seconds) result }
        ensures caches { EventCaches self.old self.new (event.Tick seconds) result.reply }
    {
        self.moment = self.moment.saturating_add(seconds);
        self.around.clock.set(self.moment);
        self.say(None, Reply::Fine)
    }

    // Applies what happens to the client of a number.
    fn act<F: Fn(u64, u64, u64) -> bool>(
        &mut self,
        alloc: Global,
        number: u64,
        act: Act,
        rule: &KeepRule<F>,
    ) -> Said
        requires world { IsWorld self.old }
        requires few { self.old.tally.events < 2 ^ 63 }
        requires from { 1 ≤ number }
        requires to { number ≤ self.old.spec.clients }
        requires keeps { KeepsAct self.old.spec act }
        requires rule { IsKeepRule (F.pre rule.now.rule) (F.post rule.now.rule) }
        ensures world { IsWorld self.new }
        ensures spec { self.new.spec ≡ self.old.spec }
        ensures tally { self.new.tally ≡ tallied self.old.tally result }
        ensures takes { TakesEvent self.old self.new (event.Of number act) result }
        ensures sets { SetsAsTold self.old self.new (event.Of number act) }
        ensures caches { EventCaches self.old self.new (event.Of number act) result.reply }
    {
        numbers_differ();
        let before = self.around.store.version_count();
        let Some(place) = take(&mut self.places, number) else {
            unreachable!()
        };
        let (place, reply) = place.act(alloc, &mut self.around, rule, self.spec.slots, act);
        add(&mut self.places, number, place);
        self.around.clock.set(self.moment);
        let published = self.published_since(before);
        self.say(published, reply)
    }

    // Says what an event published and its reply, and counts it.
    fn say(&mut self, published: Option<u64>, reply: Reply) -> Said
        requires few { self.old.tally.events < 2 ^ 63 }
        requires tally { IsTally self.old.tally }
        ensures said { result ≡ record { published = published; reply = reply } }
        ensures only { self.new ≡ record self.old { tally = tallied self.old.tally result } }
        ensures tally { IsTally self.new.tally }
    {
        let said = Said { published, reply };
        self.tally.count(&said);
        said
    }

    // The number of the last version, where there were fewer before.
    fn published_since(&self, before: u64) -> Option<u64>
        ensures { result ≡ last_of_more before (put_count object.Manifest
            (log_of self.now.around.store)) }
    {
        let now = self.around.store.version_count();
        if now > before { Some(now) } else { None }
    }
}

// Brings up the clients of a world, each over an empty disk.
fn first_places(
    alloc: Global,
    names: &mut CountNames,
    spec: &WorldSpec,
) -> Result<Vec<Slot<Place>>, AllocError>
    requires none { names.old.count ≡ 0 }
    requires few { spec.now.clients ≤ 16 }
    ensures places { IfOk result (λ places. HasPlaces
        (λ n. PlaceWithin 0) spec.now.clients places.items) }
    ensures first { IfOk result (λ places. FirstPlaces spec.now.clients names.new spec.now.slots
        places.items) }
{
    numbers_differ();
    let mut places = Vec::new(alloc);
    for number in 1..u64::from(spec.clients) + 1 {
        places.reserve(1)?;
        let place = Place::new(alloc, names, spec.slots)?;
        add(&mut places, number, place);
    }
    Ok(places)
}
