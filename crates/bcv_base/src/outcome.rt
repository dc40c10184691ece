/// What becomes of a request to the store: it is done and answered, it fails without effect, or it has its effect and
/// its answer is lost.
#[derive(Clone, Copy, Debug, PartialEq, Eq)]
pub enum Outcome {
    Ok,
    Fail,
    Lost,
}
