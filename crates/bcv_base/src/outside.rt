/// What a client reaches of the world: a store, a clock and new names.
#[derive(Debug, Drop)]
pub struct Outside<S, C, N> {
    pub store: S,
    pub clock: C,
    pub names: N,
}
