//! Cases of folders that are written while calls fail, and opened again from what that leaves.

ghost use Rattle.std.specs.Prelude.{◌≡◌, Any};

use crate::playing::{folder_of, no_room, owner_of, put_all};
use case_disks::text_of;
use case_files::{Answer, Case, CaseFault, Subject};
use case_stops::{Played, is_always_kept};
use disk_model::Device;
use folder_core::{Archive, Known};
use folder_drivers::Drivers;
use mail_base::Kind;
use maildir_folder::MaildirDriver;
use mbox_folder::MboxDriver;
use mh_folder::MhDriver;
use std::alloc::Global;

/// The steps of the other cases, stopped, refused, and made beside others; the folder is opened
/// again by a recovery and a scan of the same `owner`. The rest is as the calls in case_stops say.
pub struct Stops;

impl Subject for Stops {
    fn inputs(&self) -> &[&[u8]] {
        &[
            b"file", b"folder", b"failing", b"others", b"each", b"mbox", b"maildir", b"mh",
            b"owner", b"scan", b"sync", b"recover", b"purge", b"make", b"append", b"from", b"must",
            b"may", b"gone",
        ]
    }

    fn answer(&self, alloc: Global, case: &Case, answer: &mut Answer) -> Result<(), CaseFault> {
        answer.put_flag(b"kept", is_always_kept(alloc, self, case)?)
    }
}

impl Played for Stops {
    fn play(&self, alloc: Global, case: &Case, dev: &mut Device) -> Result<(), CaseFault> {
        let mut unseen = Answer::new(alloc);
        put_all(alloc, &mut unseen, dev, case)
    }

    fn open_again(
        &self,
        alloc: Global,
        case: &Case,
        dev: &mut Device,
    ) -> Result<Option<Archive>, CaseFault> {
        let (kind, path) = folder_of(case)?;
        let mut drivers = Drivers::new(alloc);
        drivers
            .add(Box::new(alloc, MboxDriver::new())?)
            .map_err(no_room)?;
        drivers
            .add(Box::new(alloc, MaildirDriver::new())?)
            .map_err(no_room)?;
        drivers
            .add(Box::new(alloc, MhDriver::new())?)
            .map_err(no_room)?;
        if drivers.has(kind) {
            letters_by(alloc, dev, &drivers, kind, text_of(path)?, owner_of(case))
        } else {
            Err(CaseFault::BadInput)
        }
    }
}

/// The letters by the driver of the kind: what was left over is finished or taken away, and then
/// the folder is scanned.
fn letters_by(
    alloc: Global,
    dev: &mut Device,
    drivers: &Drivers,
    kind: Kind,
    path: &str,
    owner: &[u8],
) -> Result<Option<Archive>, CaseFault>
    requires { Any (λ d. sort (d.vtable, d.value) ≡ kind) drivers.now.list.items }
{
    let mut known = Known::new(alloc, path, kind)?;
    let mut archive = Archive::new(alloc);
    if drivers
        .recover(alloc, kind, dev, &mut known, owner)
        .is_err()
    {
        return Ok(None);
    }
    match drivers.scan(alloc, kind, dev, &mut known, &mut archive) {
        Ok(_) => Ok(Some(archive)),
        Err(_) => Ok(None),
    }
}
