ghost use Rattle.std.specs.Prelude.{◌≡◌};
ghost use Rattle.bcv_proto.specs.Fields.{kind_of, has_length};

/// The kinds of messages.
#[derive(Clone, Copy, Debug, PartialEq, Eq)]
pub(crate) enum Kind {
    Poll,
    Begin,
    Read,
    End,
    List,
    Hold,
    Look,
    Free,
}

impl Kind {
    /// The kind of a number, where there is one.
    pub(crate) fn of(number: u8) -> Option<Kind>
        ensures { result ≡ kind_of number }
    {
        match number {
            1 => Some(Kind::Poll),
            2 => Some(Kind::Begin),
            3 => Some(Kind::Read),
            4 => Some(Kind::End),
            5 => Some(Kind::List),
            6 => Some(Kind::Hold),
            7 => Some(Kind::Look),
            8 => Some(Kind::Free),
            _ => None,
        }
    }

    /// Whether a message of this kind may have so many bytes after its length.
    pub(crate) fn has_length(self, len: u32) -> bool
        ensures { result ≡ has_length self len }
    {
        match self {
            Kind::Poll | Kind::End | Kind::List => len == 5,
            Kind::Begin => len >= 6 && len <= 69,
            Kind::Read => len == 17,
            Kind::Hold | Kind::Look | Kind::Free => len == 9,
        }
    }
}
