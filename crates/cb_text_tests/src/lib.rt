//! Worked texts, through the public calls of `cb_market` and `cb_market_pages`, and of `cb_job_inputs` and `cb_job_output`, which read and
//! write with several threads.
#![tactic(auto)]

#[cfg(test)]
mod market;
#[cfg(test)]
mod meetings;
#[cfg(test)]
mod reading;
#[cfg(test)]
mod writing;
