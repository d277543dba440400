//! Tests of cores on disks and of the shelf on which they stand, over the public calls of `disk_trait`, `oplog_file`,
//! `core_disk` and `core_shelf`: what neither a clause nor a worked fact says.
#![tactic(auto)]

#[cfg(test)]
mod changes;
#[cfg(test)]
mod cores;
#[cfg(test)]
mod crashes;
#[cfg(test)]
mod faults;
#[cfg(test)]
mod shelves;
#[cfg(test)]
mod stores;
