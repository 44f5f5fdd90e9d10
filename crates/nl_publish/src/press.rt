//! What publishes: entries wait until all of them are shown at once.
ghost use Rattle.std.specs.Prelude.{◌≡◌, ◌<◌, ◌^◌, ◌++◌, ◌∷◌, [], List, fold, drop, IfOk, MatchBool, MatchResult};
ghost use Rattle.nl_publish.specs.Refusals.{HasRefused};
ghost use Rattle.left_right.specs.Sides.{view};
ghost use Rattle.nl_publish.specs.States.{AreNext, HasShown, IsWhole, name_of};

use crate::protocol::{LearnBook, NoteBook, SeeState, StateReader, StateWriter};
use crate::reader_state::{Entry, ReaderState};
use core::mem::replace_with;
use left_right::writer::Writer;
use std::alloc::{AllocError, Global};
use std::sync::Wait;

/// Counts a refusal: so often, and once more.
pub fn count_refusal(refusals: u64) -> u64
    ensures { HasRefused refusals result }
{
    if refusals == u64::MAX {
        return refusals;
    }
    refusals + 1
}

/// What shows states to readers, one entry behind the other. It counts what it refuses.
pub trait Press {
    ghost use Rattle.std.specs.Prelude.{ℕ, List};
    ghost use Rattle.nl_publish.specs.declared.reader_state.ReaderState.{ReaderState};
    ghost use Rattle.nl_publish.specs.declared.reader_state.Entry.{Entry};

    /// The state that readers see.
    ghost shown: { Self → ReaderState };

    /// What they do not see yet.
    ghost unseen: { Self → List Entry };

    /// How often it has refused an entry, or to show any more.
    ghost refusals: { Self → ℕ };

    /// Puts an entry behind the others. It comes back where there is no memory.
    fn push(&mut self, entry: Entry) -> Result<(), Entry>
        ensures shown { shown self.new ≡ shown self.old }
        ensures unseen { MatchResult result (λ _. unseen self.new ≡ unseen self.old ++ entry ∷ [])
            (λ e. (e ≡ entry) × (unseen self.new ≡ unseen self.old)) }
        ensures counted { MatchResult result (λ _. refusals self.new ≡ refusals self.old)
            (λ _. HasRefused (refusals self.old) (refusals self.new)) };

    /// Shows all of it and answers true, or nothing more for want of memory. It waits for readers.
    fn show<R: Wait>(&mut self, rt: &R) -> bool
        requires { AreNext (shown self.old) (unseen self.old) }
        ensures shown { HasShown result
            (shown self.old) (unseen self.old) (shown self.new) (unseen self.new) }
        ensures counted { MatchBool result (refusals self.new ≡ refusals self.old)
            (HasRefused (refusals self.old) (refusals self.new)) };

    /// The state that readers see.
    fn state(&self) -> &ReaderState
        ensures { result.now ≡ shown self.now };
}

fn show_all<R: Wait>(writer: StateWriter, rt: &R) -> (StateWriter, bool)
    requires { AreNext writer.desk.shown.value (drop writer.behind writer.log.items) }
    ensures { HasShown result.1 writer.desk.shown.value (drop writer.behind writer.log.items)
        result.0.desk.shown.value (drop result.0.behind result.0.log.items) }
{
    let (writer, shown) = writer.publish_as::<SeeState, R>(rt);
    (writer, shown.is_ok())
}

/// The writer of two copies of the state, of which readers see one.
pub struct Publisher {
    writer: StateWriter,
    refusals: u64,
}

impl Press for Publisher {
    ghost use Rattle.std.specs.Prelude.{drop};

    ghost shown = { λ p. p.writer.desk.shown.value };

    ghost unseen = { λ p. drop p.writer.behind p.writer.log.items };

    ghost refusals = { λ p. p.refusals };

    fn push(&mut self, entry: Entry) -> Result<(), Entry> {
        match self.writer.append(entry) {
            Ok(()) => Ok(()),
            Err(entry) => {
                self.refusals = count_refusal(self.refusals);
                Err(entry)
            }
        }
    }

    fn show<R: Wait>(&mut self, rt: &R) -> bool {
        if replace_with(&mut self.writer, rt, |writer, rt| show_all(writer, rt)) {
            return true;
        }
        self.refusals = count_refusal(self.refusals);
        false
    }

    fn state(&self) -> &ReaderState {
        self.writer.published()
    }
}

impl Publisher {
    /// Readers find nothing from now on.
    pub fn end<R: Wait>(self, rt: &R) {
        let Publisher {
            writer,
            refusals: _,
        } = self;
        writer.take(rt);
    }
}

/// A writer that shows a state, and that knows its book.
pub struct NamedWriter {
    writer: StateWriter,
    pub ghost known: { view writer.desk.place ≡ name_of writer.desk.shown.value.seen.book },
}

/// A writer with places for so many readers, which learns by a first publication which book its state is of.
pub fn open<R: Wait>(
    alloc: Global,
    rt: &R,
    first: ReaderState,
    second: ReaderState,
    readers: usize,
) -> Result<NamedWriter, AllocError>
    requires readers { (0 < readers) × (readers < 2 ^ 32) }
    requires alike { first ≡ second }
    requires whole { IsWhole first }
    ensures shown { IfOk result (λ n. n.writer.desk.shown.value ≡ first) }
    ensures unseen { IfOk result (λ n. drop n.writer.behind n.writer.log.items ≡ []) }
{
    let writer: StateWriter = Writer::new(alloc, first, second, readers)?;
    let (writer, shown) = writer.publish_as::<LearnBook, R>(rt);
    if shown.is_err() {
        writer.take(rt);
        return Err(AllocError);
    }
    Ok(NamedWriter { writer })
}

impl NamedWriter {
    /// A reader that knows the state's book.
    pub fn seat(&mut self) -> Result<StateReader, AllocError>
        ensures told { IfOk result (λ r.
            view r.place ≡ name_of self.old.writer.desk.shown.value.seen.book) }
        ensures shown { self.new.writer.desk.shown ≡ self.old.writer.desk.shown }
        ensures unseen { drop self.new.writer.behind self.new.writer.log.items
            ≡ drop self.old.writer.behind self.old.writer.log.items }
    {
        let mut reader = self.writer.factory().reader()?;
        reader.learn::<NoteBook>(self.writer.tell::<NoteBook>());
        Ok(reader)
    }

    /// The writer alone, once the readers have their seats.
    pub fn publisher(self) -> Publisher
        ensures { result.writer ≡ self.writer }
    {
        let NamedWriter { writer } = self;
        Publisher {
            writer,
            refusals: 0,
        }
    }
}
