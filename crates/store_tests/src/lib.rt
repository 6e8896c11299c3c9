//! Tests of stores, mounts, streams and turns that need a fake, threads or the system: what no line of a program of cases reaches.
//!
//! It has no code of its own. `turns` runs threads over a turn, `stores` calls a store in memory as one whose calls fail,
//! `mounts` several such stores as one, `files` a store of files in folders of its own, `ends` the streams of a run.
#![tactic(auto)]

#[cfg(test)]
mod ends;
#[cfg(test)]
mod files;
#[cfg(test)]
mod mounts;
#[cfg(test)]
mod stores;
#[cfg(test)]
mod turns;
