//! What no contract says of the program, and no row of `tests/rows` shows: the program beside the evaluators, streams that
//! fail, and the limits of programs; and of running threads: that a report comes and is no mismatch, and that workers run at once.
#![tactic(auto)]

#[cfg(test)]
mod at_once;
#[cfg(test)]
mod audited;
#[cfg(test)]
mod audits;
#[cfg(test)]
mod changed;
#[cfg(test)]
mod code;
#[cfg(test)]
mod every_schedule;
#[cfg(test)]
mod fronts;
#[cfg(test)]
mod limits;
#[cfg(test)]
mod meanings;
#[cfg(test)]
mod program;
#[cfg(test)]
mod runs;
#[cfg(test)]
mod seen;
#[cfg(test)]
mod streams;
#[cfg(test)]
mod workers;
