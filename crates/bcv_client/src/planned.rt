//! What is planned to strike a client's disk.
ghost use Rattle.std.specs.Prelude.{◌≡◌, ◌<◌, Some};
ghost use Rattle.bcv_machine.specs.CrashAndUp.{SetsFailure, SetsFuse};
ghost use Rattle.bcv_model.specs.declared.reply.Reply.TheVariants as reply;
ghost use Rattle.bcv_client.specs.InForm.{InForm};
ghost use Rattle.bcv_client.specs.Planned.{OnlyPlans, SetsOver, trouble_of, with_failure, with_fuse};

use crate::client::Client;
use bcv_disk::Planned;

impl<D: Planned> Client<D> {
    /// Plans a crash of the disk: `calls` further calls of it pass, and the next one leaves the image of that number.
    pub fn fuse(&mut self, calls: u32, image: u8)
        requires image { image < 5 }
        requires form { InForm self.old }
        ensures form { InForm self.new }
        ensures only { OnlyPlans D.shown self.old self.new
            (record (trouble_of D.shown self.old) { fuse = Some (calls, image) }) }
        ensures sets { SetsOver D.shown with_fuse (λ s t. SetsFuse s reply.Fine t)
            self.old self.new }
    {
        self.ledger.log.fuse(calls, image);
    }

    /// Plans a failure of the disk: `calls` further calls of it pass, and the next one fails.
    pub fn fail(&mut self, calls: u32)
        requires form { InForm self.old }
        ensures form { InForm self.new }
        ensures only { OnlyPlans D.shown self.old self.new
            (record (trouble_of D.shown self.old) { failure = Some calls }) }
        ensures sets { SetsOver D.shown with_failure (λ s t. SetsFailure s reply.Fine t)
            self.old self.new }
    {
        self.ledger.log.fail(calls);
    }

    /// Whether a fuse has burnt the disk.
    pub fn burnt(&self) -> bool
        ensures { result ≡ (trouble_of D.shown self.now).burnt }
    {
        self.ledger.log.burnt()
    }
}
