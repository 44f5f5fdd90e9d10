//! Attributes of the host's files: as the system tells them, and set.
use crate::left_out::Reason;
use nl_manifests::{Attributes, Time};
use std::fs::{File, FileTimes, Metadata, Permissions};
use std::os::unix::fs::{MetadataExt, PermissionsExt, fchown, lchown};
use std::rt::Files;
use std::time::{Duration, SystemTime, UNIX_EPOCH};

/// The bits of a mode that chmod(2) sets.
const MODE_BITS: u32 = 0o7777;

/// Those that chmod(2) sets where owners aren't set: none by which others act as an owner or a group.
const PLAIN_BITS: u32 = 0o1777;

/// What the system tells of a file beside its bytes.
pub(crate) fn attributes_of(metadata: &Metadata) -> Attributes {
    let seconds = metadata.mtime();
    Attributes {
        mode: u16::try_from(metadata.mode() & MODE_BITS).unwrap_or(0),
        owner: metadata.uid(),
        group: metadata.gid(),
        time: Time {
            is_negative: seconds < 0,
            seconds: seconds.unsigned_abs(),
            nanoseconds: u32::try_from(metadata.mtime_nsec()).unwrap_or(0),
        },
    }
}

/// A time as std has it, which has none before 1970.
fn system_time(time: Time) -> Option<SystemTime> {
    if time.is_negative {
        return None;
    }
    let nanoseconds = Duration::from_nanos(u64::from(time.nanoseconds));
    let since = Duration::from_secs(time.seconds).checked_add(nanoseconds)?;
    UNIX_EPOCH.checked_add(since)
}

/// Sets the time and the mode of an open directory or file. What can't be set is answered.
fn set_inner(file: &File, attributes: Attributes, bits: u32) -> Option<Reason> {
    let mode = u32::from(attributes.mode) & bits;
    let is_timed = match system_time(attributes.time) {
        Some(time) => file.set_times(FileTimes::new().set_modified(time)).is_ok(),
        None => false,
    };
    if file.set_permissions(Permissions::from_mode(mode)).is_err() {
        return Some(Reason::Mode);
    }
    if is_timed { None } else { Some(Reason::Time) }
}

/// Whether the system has such owners. The greatest number stands for none: it would leave what is there.
fn are_owners(attributes: Attributes) -> bool {
    attributes.owner != u32::MAX && attributes.group != u32::MAX
}

/// Sets the owners of an open directory or file, and answers whether it did.
fn set_owners(file: &File, attributes: Attributes) -> bool {
    are_owners(attributes) && fchown(file, Some(attributes.owner), Some(attributes.group)).is_ok()
}

/// Sets the attributes of an open directory or file. Owners come first, since with them the system takes bits of
/// the mode away; where they aren't set, no other is to act as them. What can't be set is answered.
pub(crate) fn set_attributes(
    file: &File,
    attributes: Attributes,
    with_owners: bool,
) -> Option<Reason> {
    let is_owned = with_owners && set_owners(file, attributes);
    let bits = if is_owned { MODE_BITS } else { PLAIN_BITS };
    let reason = set_inner(file, attributes, bits);
    if with_owners && !is_owned {
        Some(Reason::Owners)
    } else {
        reason
    }
}

/// Sets the owners of a link at a path of the host. What can't be set is answered.
pub(crate) fn set_link_owners<R: Files>(
    files: &R,
    place: &str,
    attributes: Attributes,
) -> Option<Reason> {
    let (owner, group) = (Some(attributes.owner), Some(attributes.group));
    if are_owners(attributes) && lchown(files, place, owner, group).is_ok() {
        None
    } else {
        Some(Reason::Owners)
    }
}
