//! Tests of `cb_rank_operations` and `cb_serial` through their public calls: every operation with every engine on grids of several
//! sides, and on one thread, with ample memory and with each allocation refused in turn; orders of events; and ranks that
//! are left alone. The matrices are over min-plus. `tools/answers` runs worked examples over other semirings, and searches.
#![tactic(auto)]

#[cfg(test)]
mod examples;
#[cfg(test)]
mod left_alone;
#[cfg(test)]
mod operations;
#[cfg(test)]
mod orders;
