//! Tests of what no whole run shows: shares of worked systems, rates beside those of a max-min solve of the whole, how
//! little an end touches, energies, turns that meet in threads, kinds of faults.
//! One enters by a module of tests, as `settling`; there is nothing else in it. `counted` runs those that count visits.
//! It stands on `sg_activity`, `sg_actor`, `sg_collectives`, `sg_units`, what is below these, and `sg_job_cases`.
#![tactic(auto)]

#[cfg(test)]
mod counted;
#[cfg(test)]
mod ends;
#[cfg(test)]
mod filling;
#[cfg(test)]
mod flags;
#[cfg(test)]
mod hosts;
#[cfg(test)]
mod meter;
#[cfg(test)]
mod ranks;
#[cfg(test)]
mod rounds;
#[cfg(test)]
mod settling;
#[cfg(test)]
mod units;
