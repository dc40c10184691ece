//! The numbers of open transactions.
ghost use Rattle.std.specs.Prelude.{◌≡◌, ◌<◌, ◌≤◌, length, Some, false};
ghost use Rattle.std.specs.List.{position};
ghost use Rattle.bcv_machine.specs.State.{has_number, least_free};
ghost use Rattle.bcv_transaction.specs.Open.{is_numbered, numbers_of};

use crate::open_txn::OpenTxn;

/// The most transactions that are open at a time.
pub(crate) const MOST_TXNS: usize = 64;

/// The least number from 1 that no transaction has. Fewer than 64 are txns.
pub(crate) fn least_free(txns: &[OpenTxn]) -> u8
    requires { length txns.now < 64 }
    ensures free { least_free (numbers_of txns.now) ≡ Some result }
    ensures unused { has_number result (numbers_of txns.now) ≡ false }
    ensures first { 1 ≤ result }
    ensures few { result ≤ 64 }
{
    for number in 1..=64u8 {
        if !has_number(txns, number) {
            return number;
        }
    }
    unreachable!()
}

// Whether a transaction has the number.
fn has_number(txns: &[OpenTxn], number: u8) -> bool
    ensures { result ≡ has_number number (numbers_of txns.now) }
{
    txns.iter().any(|txn| txn.number == number)
}

/// Where the transaction of a number stands.
pub(crate) fn place_of(txns: &[OpenTxn], number: u8) -> Option<usize>
    ensures { result ≡ position (is_numbered number) txns.now }
{
    txns.iter().position(|txn| txn.number == number)
}
