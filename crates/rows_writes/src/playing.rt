//! The steps of a case, taken on a disk in memory by the drivers of the kinds that are written.

use crate::additions::put_additions;
use crate::syncs::put_steps;
use crate::tree::put_tree;
use case_disks::disk_of;
use case_files::{Answer, Case, CaseFault};
use disk_model::Device;
use folder_drivers::{Drivers, DriversError};
use mail_base::Kind;
use maildir_folder::MaildirDriver;
use mbox_folder::MboxDriver;
use mh_folder::MhDriver;
use std::alloc::Global;

pub fn no_room(_why: DriversError) -> CaseFault {
    CaseFault::NoMemory
}

/// The owner of a case, whose word stands in locks; empty where there is none.
pub fn owner_of(case: &Case) -> &[u8] {
    case.find(b"owner").unwrap_or(b"")
}

/// The folder of a case: the path of its `mbox`, its `maildir` or its `mh`.
pub fn folder_of(case: &Case) -> Result<(Kind, &[u8]), CaseFault> {
    if let Some(path) = case.find(b"mbox") {
        Ok((Kind::Mbox, path))
    } else if let Some(path) = case.find(b"maildir") {
        Ok((Kind::Maildir, path))
    } else {
        Ok((Kind::Mh, case.need(b"mh")?))
    }
}

/// Takes each step of the case on a disk, and then adds each message of it.
pub fn put_all(
    alloc: Global,
    answer: &mut Answer,
    dev: &mut Device,
    case: &Case,
) -> Result<(), CaseFault> {
    let mut drivers = Drivers::new(alloc);
    drivers
        .add(Box::new(alloc, MboxDriver::new())?)
        .map_err(no_room)?;
    drivers
        .add(Box::new(alloc, MaildirDriver::new())?)
        .map_err(no_room)?;
    drivers
        .add(Box::new(alloc, MhDriver::new())?)
        .map_err(no_room)?;
    put_steps(alloc, answer, dev, &drivers, case)?;
    put_additions(alloc, answer, dev, &drivers, case)
}

/// Takes all of that on the disk of the case, and puts the tree that is left.
pub fn put_played(alloc: Global, answer: &mut Answer, case: &Case) -> Result<(), CaseFault> {
    let mut dev = Device::new(Box::new(alloc, disk_of(alloc, case)?)?);
    put_all(alloc, answer, &mut dev, case)?;
    put_tree(alloc, answer, &dev)
}
