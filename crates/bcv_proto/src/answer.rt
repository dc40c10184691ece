use bcv_base::Seq;
use bcv_model::{Reply, Row};

/// What a message is answered with.
#[derive(Drop)]
pub enum Answer {
    /// An end, a hold or a free was done.
    Fine,
    /// The number of the last version that a poll found.
    Polled(u64),
    /// A transaction was begun: the number of its version, its page size and how many pages it has.
    Begun {
        number: u64,
        page_size: u32,
        pages: u32,
    },
    /// The bytes that are there, fewer than asked for where the database ends.
    Bytes(Seq<u8>),
    /// The known databases, ascending by name.
    Rows(Seq<Row>),
    /// Why the message was refused. It is written as the reply's text.
    Refused(Reply),
}
