//! Tests of mailboxes, lanes between threads and traces, through their public calls alone.
#![tactic(auto)]

#[cfg(test)]
mod capacities;
#[cfg(test)]
mod lanes;
#[cfg(test)]
mod mailbox;
#[cfg(test)]
mod sleepers;
#[cfg(test)]
mod trace;
