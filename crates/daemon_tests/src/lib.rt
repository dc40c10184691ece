//! Tests of the daemon: connections with their messages and answers, byte for byte.
#![tactic(auto)]

#[cfg(test)]
mod bad_bytes;
#[cfg(test)]
mod container;
#[cfg(test)]
mod ends;
#[cfg(test)]
mod loopback;
#[cfg(test)]
mod served;
#[cfg(test)]
mod sessions;
