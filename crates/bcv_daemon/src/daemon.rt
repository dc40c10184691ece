ghost use Rattle.std.specs.Prelude.{◌≡◌};
ghost use Rattle.bcv_clientlog.specs.LogParts.{log_disk};

use bcv_client::Client;
use bcv_disk::Disk;

/// A client that is served to connections, one after the other.
#[derive(Drop)]
pub struct Daemon<D: Disk> {
    pub client: Client<D>,
}

impl<D: Disk> Daemon<D> {
    /// A daemon over a client that is up.
    pub fn new(client: Client<D>) -> Daemon<D>
        ensures { result.client ≡ client }
    {
        Daemon { client }
    }

    /// Takes the client down, and returns its disk.
    pub fn down(self) -> D
        ensures { result ≡ log_disk self.client.ledger.log }
    {
        let Daemon { client } = self;
        client.down()
    }
}
