use bcv_snapshot::Txn;

/// A transaction that is open: its number, the number of the page set that its view is of, and the transaction.
pub struct OpenTxn {
    pub(crate) number: u8,
    pub(crate) set: usize,
    pub(crate) txn: Txn,
}
