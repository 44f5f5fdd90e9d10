//! Entries: commits that were noted in the history, on their way to what publishes.
ghost use Rattle.std.specs.Prelude.{◌≡◌, ◌<◌, ◌+◌, ◌++◌, None, IfNone, IfSome, OnSome, length};
ghost use Rattle.nl_commit.specs.Commits.{IsHistory};
ghost use Rattle.nl_publish.specs.Locks.{listed};
ghost use Rattle.nl_publish.specs.Noting.{EntryComes, IsNotedEntry};
ghost use Rattle.nl_publish.specs.Refusals.{HasRefused};

use crate::history::{Front, HistoryLog};
use crate::protocol::Volumes;
use crate::reader_state::Entry;
use nl_commit::Commit;

/// Notes the first commit that waits. Where the history takes no more of them nothing changes, but that this is
/// counted.
fn note_first<J: Volumes>(
    noted: &mut Front<J>,
    log: &mut HistoryLog<J>,
    waiting: &mut Vec<Commit>,
) -> Option<Entry>
    requires volume { log.old.volume ≡ noted.old.volume }
    requires history { IsHistory (noted.old.commits ++ waiting.old.items) }
    requires some { 0 < length waiting.old.items }
    ensures noted { IfSome result
        (IsNotedEntry J.book noted.old waiting.old.items noted.new waiting.new.items) }
    ensures own { log.new.volume ≡ log.old.volume }
    ensures same { OnSome result (log.new ≡ log.old) }
    ensures refused { IfNone result (HasRefused log.old.refusals log.new.refusals) }
    ensures left { IfNone result (noted.new ≡ noted.old) }
    ensures waits { IfNone result (waiting.new.items ≡ waiting.old.items) }
{
    let Some(longer) = noted.with_commit(log, &waiting[0]) else {
        return None;
    };
    let commit = waiting.remove(0);
    let entry = Entry {
        commit,
        count: longer.len(),
        seen: longer.token(),
    };
    *noted = longer;
    Some(entry)
}

/// The next entry for the writer: the one that is left, or the first commit that waits, which is noted then.
pub(crate) fn next_entry<J: Volumes>(
    unsent: &mut Option<Entry>,
    noted: &mut Front<J>,
    log: &mut HistoryLog<J>,
    waiting: &mut Vec<Commit>,
) -> Option<Entry>
    requires volume { log.old.volume ≡ noted.old.volume }
    requires history { IsHistory (noted.old.commits ++ waiting.old.items) }
    requires some { 0 < length (listed unsent.old) + length waiting.old.items }
    ensures comes { IfSome result (EntryComes J.book unsent.old noted.old waiting.old.items
        noted.new waiting.new.items) }
    ensures out { unsent.new ≡ None }
    ensures own { log.new.volume ≡ log.old.volume }
    ensures same { OnSome result (log.new ≡ log.old) }
    ensures refused { IfNone result (HasRefused log.old.refusals log.new.refusals) }
    ensures none { IfNone result (unsent.old ≡ None) }
    ensures left { IfNone result (noted.new ≡ noted.old) }
    ensures waits { IfNone result (waiting.new.items ≡ waiting.old.items) }
{
    match unsent.take() {
        Some(entry) => Some(entry),
        None => note_first(noted, log, waiting),
    }
}
