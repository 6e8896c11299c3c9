//! Tests of runs of several sessions: what no line of a program of cases reaches.
//!
//! It has no code of its own. `meetings` runs two sessions of which a gate holds one until the other has come so far, `faults` such over a
//! store that fails, `four` four sessions beside each other, `made` the scripts that are made from a number, `wants` sessions over a store
//! that wants memory.
#![tactic(auto)]

#[cfg(test)]
mod counted;
#[cfg(test)]
mod faults;
#[cfg(test)]
mod four;
#[cfg(test)]
mod gates;
#[cfg(test)]
mod made;
#[cfg(test)]
mod meetings;
#[cfg(test)]
mod runs;
#[cfg(test)]
mod wants;
