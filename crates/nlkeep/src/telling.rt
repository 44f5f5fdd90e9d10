//! What a command tells once it has saved an image.
use crate::asking::Outcome;
use crate::faults::Fault;
use crate::images::save_image;
use crate::printing::Printer;
use nl_saving::SavePlace;
use std::alloc::{AllocError, Global};
use std::io::{self, Write};

/// What is told once an image is saved. It is put together before that, as behind it nothing may be refused.
#[derive(Drop)]
pub struct News {
    /// For standard output.
    pub text: Vec<u8>,
    /// What is done, for a person whose standard output fails.
    pub done: String,
}

fn write_all<W: Write>(text: &[u8], out: &mut W) -> io::Result<()> {
    out.write_all(text)?;
    out.flush()
}

impl News {
    /// Tells it.
    fn tell<W: Write>(self, printer: &mut Printer<W>) -> Result<(), Fault> {
        let News { text, done } = self;
        match write_all(text.as_slice(), &mut printer.out) {
            Ok(()) => Ok(()),
            Err(error) => Err(Fault::Behind(done, error)),
        }
    }

    /// Puts an image in its place, and its sum beside it, and tells then what was done. Answers whether the
    /// sum was left out.
    pub fn save<W: Write>(
        self,
        rt: &HostRuntime,
        path: &str,
        place: &mut SavePlace<'_>,
        image: &[u8],
        printer: &mut Printer<W>,
    ) -> Result<Outcome, Fault> {
        let saved = save_image(rt, path, place, image)?;
        self.tell(printer)?;
        Ok(saved)
    }
}

/// Tells what was put together, if anything was.
pub fn tell_news<W: Write>(news: Option<News>, printer: &mut Printer<W>) -> Result<(), Fault> {
    match news {
        Some(news) => news.tell(printer),
        None => Ok(()),
    }
}

/// What a person is told of so many checkpoints, of which this was done.
pub fn done_to(alloc: Global, count: u64, what: &str) -> Result<String, AllocError> {
    let are = if count == 1 { " is" } else { "s are" };
    format!(in alloc; "{count} checkpoint{are} {what}")
}

/// What a person is told of a snapshot that is made.
pub fn done_as(alloc: Global, snapshot: u64) -> Result<String, AllocError> {
    format!(in alloc; "snapshot {snapshot} is saved")
}
