//! What mounts are asked through ports.
use nl_mounts::Port;
use nl_publish::{Mount, Volumes};
use nl_types::{Answer, Ask, Reply};
use std::alloc::Global;

/// What a port answers to a question about a mount.
pub(crate) fn ask_port<J: Volumes>(
    alloc: Global,
    port: &mut Port<J>,
    mount: &Mount<J>,
    ask: &Ask,
) -> Reply {
    match ask {
        Ask::Bytes { path, offset, len } => port
            .read(alloc, mount, path.as_slice(), *offset, *len)
            .map(Answer::Bytes),
        Ask::List { path } => port.list(alloc, mount, path.as_slice()).map(Answer::Names),
        Ask::Stat { path } => port.stat(mount, path.as_slice()).map(Answer::Stat),
    }
}
