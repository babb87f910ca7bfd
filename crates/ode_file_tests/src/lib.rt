//! Tests of files over a disk in memory: new ones, what makes one bad, journals, gates, stored tables, files of two areas, and queues
//! that wait in one.
#![tactic(auto)]

#[cfg(test)]
mod equal;
#[cfg(test)]
mod files;
#[cfg(test)]
mod full;
#[cfg(test)]
mod full_queue;
#[cfg(test)]
mod gates;
#[cfg(test)]
mod journal;
#[cfg(test)]
mod migrated;
#[cfg(test)]
mod new_files;
#[cfg(test)]
mod queues;
#[cfg(test)]
mod stored_triggers;
