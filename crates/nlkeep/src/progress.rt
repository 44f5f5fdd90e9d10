//! What is told of the work that is done, on standard error where that is a terminal.
use crate::sizes::Size;
use clap::ArgMatches;
use nl_host::Watching;
use std::io::IsTerminal;
use std::time::Instant;

/// How long a command has been at work, and what was told of it.
#[derive(Drop)]
pub struct Progress<'a> {
    rt: &'a HostRuntime,
    /// When the work began. None where nobody is told.
    begun: Option<Instant>,
    /// How many seconds had gone when it was told last how much was read.
    told: u64,
    /// Whether something that was told stands there.
    is_shown: bool,
}

impl<'a> Progress<'a> {
    /// Nobody is told where no terminal is, nor with `-q`.
    pub fn begin(rt: &'a HostRuntime, matches: &ArgMatches<'_>) -> Progress<'a> {
        let begun = if rt.stderr().is_terminal() && !matches.get_flag("quiet") {
            Instant::now(rt).ok()
        } else {
            None
        };
        Progress {
            rt,
            begun,
            told: 0,
            is_shown: false,
        }
    }

    /// Whether a second has gone since something was told, or since the work began.
    fn is_due(&mut self) -> bool {
        let Some(begun) = self.begun else {
            return false;
        };
        let Ok(gone) = begun.elapsed(self.rt) else {
            return false;
        };
        let is_due = gone.as_secs() > self.told;
        if is_due {
            self.told = gone.as_secs();
        }
        is_due
    }

    /// Tells what is read, in the place of what was told before.
    fn tell_read(&mut self, files: u64, bytes: u64) {
        if !self.is_due() {
            return;
        }
        let size = Size(bytes);
        let _ = eprint!(self.rt; "\rreading: {files} files, {size}\u{1b}[K");
        self.is_shown = true;
    }

    /// Tells what is done now, in the place of what was told before.
    pub fn tell(&mut self, what: &str) {
        if self.begun.is_some() {
            let _ = eprint!(self.rt; "\r{what}\u{1b}[K");
            self.is_shown = true;
        }
    }

    /// Whether something that was told stands there.
    pub fn is_shown(&self) -> bool {
        self.is_shown
    }

    /// Takes away what was told.
    pub fn end(&mut self) {
        if self.is_shown {
            let _ = eprint!(self.rt; "\r\u{1b}[K");
            self.is_shown = false;
        }
    }
}

/// How much of a folder has been read.
#[derive(Drop)]
pub struct Reading<'p, 'a> {
    progress: &'p mut Progress<'a>,
    files: u64,
    bytes: u64,
}

impl<'p, 'a> Reading<'p, 'a> {
    pub fn new(progress: &'p mut Progress<'a>) -> Reading<'p, 'a> {
        Reading {
            progress,
            files: 0,
            bytes: 0,
        }
    }
}

impl Watching for Reading<'_, '_> {
    fn tell(&mut self, bytes: u64) {
        self.files = self.files.saturating_add(1);
        self.bytes = self.bytes.saturating_add(bytes);
        self.progress.tell_read(self.files, self.bytes);
    }
}
