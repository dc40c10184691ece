ghost use Rattle.std.specs.Prelude.{◌≡◌, ◌<◌, ◌++◌, ◌∷◌, [], vec_capacity, vec_len};
ghost use Rattle.bcv_daemon.specs.Sessions.{txn_of, without};

/// A session with its transaction.
#[derive(Clone, Copy, Debug, PartialEq, Eq)]
pub struct Session {
    pub number: u32,
    pub txn: u8,
}

// The transaction of a session, or `None` where it has none.
pub(crate) fn txn_of(sessions: &[Session], number: u32) -> Option<u8>
    ensures { result ≡ txn_of sessions.now number }
{
    for session in sessions {
        if session.number == number {
            return Some(session.txn);
        }
    }
    None
}

// Adds a session, for which there is room.
pub(crate) fn open(sessions: &mut Vec<Session>, number: u32, txn: u8)
    requires { vec_len sessions.old < vec_capacity sessions.old }
    ensures { sessions.new.items ≡ sessions.old.items ++ record { number = number; txn = txn } ∷ [] }
{
    match sessions.push(Session { number, txn }) {
        Ok(()) => (),
        Err(_) => unreachable!(),
    }
}

// Takes a session out.
pub(crate) fn close(sessions: &mut Vec<Session>, number: u32)
    ensures { sessions.new.items ≡ without sessions.old.items number }
{
    sessions.retain(|session| session.number != number);
}
