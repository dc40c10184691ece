use bcv_base::DbName;

/// What a peer asks in a session, whose number it chooses. `off` and `len` count bytes of the database, and a page is
/// named by its number from 1 on.
#[derive(Clone, Copy, Debug)]
pub enum Message {
    Poll { session: u32 },
    Begin { session: u32, db: DbName },
    Read { session: u32, off: u64, len: u32 },
    End { session: u32 },
    List { session: u32 },
    Hold { session: u32, page: u32 },
    Look { session: u32, page: u32 },
    Free { session: u32, page: u32 },
}

/// What stands at the front of an input.
#[derive(Clone, Copy, Debug)]
pub enum Parsed {
    /// A message and its number of bytes. Whatever follows it isn't looked at.
    Whole(Message, usize),
    /// The bytes so far may go on to be a message.
    Short,
    /// However the bytes go on, no message begins with them.
    Bad,
}
