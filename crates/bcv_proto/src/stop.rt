/// Why a field was not read: it is cut by the end of the input and may go on to be one, or nothing that begins so is one.
#[derive(Clone, Copy, Debug, PartialEq, Eq)]
pub(crate) enum Stop {
    Cut,
    Bad,
}
