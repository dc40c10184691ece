//! What a world's replies were, by their number.
ghost use Rattle.std.specs.Prelude.{◌≡◌, ◌<◌, ◌^◌};
ghost use Rattle.bcv_world.specs.Tallies.{IsTally, tallied};

use bcv_model::{Reply, Said};

/// How many events were applied, how many versions were published by them, and how many replies were pages, tasks that go on,
/// and all else.
#[derive(Clone, Copy, Debug, PartialEq, Eq)]
pub struct Tally {
    pub events: u64,
    pub versions: u64,
    pub pages: u64,
    pub working: u64,
    pub other: u64,
}

impl Tally {
    /// The tally of no event.
    pub(crate) fn new() -> Tally
        ensures { result ≡ record { events = 0; versions = 0; pages = 0; working = 0; other = 0 } }
    {
        Tally {
            events: 0,
            versions: 0,
            pages: 0,
            working: 0,
            other: 0,
        }
    }

    /// Counts one event by what is said of it.
    pub(crate) fn count(&mut self, said: &Said)
        requires few { self.old.events < 2 ^ 63 }
        requires tally { IsTally self.old }
        ensures tally { IsTally self.new }
        ensures counts { self.new ≡ tallied self.old said.now }
    {
        self.events += 1;
        if said.published.is_some() {
            self.versions += 1;
        }
        match said.reply {
            Reply::Page(_) => self.pages += 1,
            Reply::Task { .. } | Reply::Working(_) => self.working += 1,
            _ => self.other += 1,
        }
    }
}
