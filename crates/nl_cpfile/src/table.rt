//! The checkpoints that are kept.
ghost use Rattle.std.specs.Prelude.{◌≡◌, ◌<◌, [], ◌∷◌, All, AllPairs, IfOk, OnErr, OnOk};
ghost use Rattle.std.specs.Option.{option_copied};
ghost use Rattle.nl_types.specs.Plain.Calls.{IsUnlessMemory};
ghost use Rattle.nl_types.specs.Plain.Limits.{checkpoint_number_limit};
ghost use Rattle.nl_types.specs.Plain.Rows.{rows_between, judged_range, kept_row, mode_change, range_removal, removal};
ghost use Rattle.nl_types.specs.Plain.Rows as told;
ghost use Rattle.nl_cpfile.specs.Searching.{IsLeastAbove};
ghost use Rattle.nl_cpfile.specs.Tables as tables;

use crate::checkpoint::Checkpoint;
use crate::earlier::Earlier;
use crate::judging::{count_snapshots, is_no_range, judge};
use crate::listing::listed;
use crate::searching::{least_above, place_of};
use nl_types::{CheckpointNumber, Items, ListOptions, Mode, Range, Row, VolError};
use std::alloc::{AllocError, Global};
use std::marker::Model;
use std::mem::replace;

/// What is told of all kept checkpoints together.
#[derive(Clone, Copy)]
pub struct Cpstat {
    /// The latest one's number.
    pub latest: CheckpointNumber,
    /// How many are kept.
    pub count: usize,
    /// How many of them are snapshots.
    pub snapshots: usize,
}

/// The kept checkpoints, ascending by their numbers. Contracts see them, and for how many more there is room.
#[derive(Drop)]
pub struct Checkpoints {
    earlier: Earlier,
    latest: Checkpoint,
}

impl Model for Checkpoints {
    ghost use Rattle.nl_cpfile.specs.Inside.{roomy_of, table_of};
    ghost use Rattle.nl_cpfile.specs.Tables.{IsTable, RoomyTable};

    ghost Value = { RoomyTable };

    ghost view = { roomy_of };

    ghost invariant = { λ inside. IsTable (table_of inside) };
}

impl Checkpoints {
    ghost use Rattle.nl_cpfile.specs.Tables.{ComesNext, IsTable, all, cpstat_of, kept_at, kept_numbers, rows};

    /// The first checkpoint alone, which may be the blank one of number 0. Takes no memory yet.
    pub fn new(alloc: Global, first: Checkpoint) -> Self
        requires limit { first.number < checkpoint_number_limit }
        ensures { result.table ≡ record { earlier = []; latest = first } }
    {
        Checkpoints {
            earlier: Earlier::new(alloc),
            latest: first,
        }
    }

    /// The checkpoints of a table: those before the latest one, ascending, and the latest one. Takes no
    /// memory.
    pub fn from_table(earlier: Vec<Checkpoint>, latest: Checkpoint) -> Self
        requires { IsTable (record { earlier = earlier.items; latest = latest }) }
        ensures { result.table ≡ record { earlier = earlier.items; latest = latest } }
    {
        Checkpoints {
            earlier: Earlier::from_vec(earlier),
            latest,
        }
    }

    /// The latest checkpoint.
    pub fn latest(&self) -> &Checkpoint
        ensures latest { result.now ≡ self.now.table.latest }
        ensures table { IsTable self.now.table }
    {
        &self.latest
    }

    /// Those before the latest checkpoint, ascending by their numbers.
    pub fn earlier(&self) -> &[Checkpoint]
        ensures earlier { result.now ≡ self.now.table.earlier }
        ensures table { IsTable self.now.table }
    {
        self.earlier.as_slice()
    }

    /// The kept checkpoint of a number.
    pub fn kept(&self, number: CheckpointNumber) -> Option<&Checkpoint>
        ensures { option_copied result ≡ kept_at number self.now.table }
    {
        let earlier = self.earlier.as_slice();
        match place_of(earlier, number) {
            Some(index) => Some(&earlier[index]),
            None if self.latest.number == number => Some(&self.latest),
            None => None,
        }
    }

    /// The least kept number above one that is below the latest. Takes no memory, and halves the list.
    pub fn first_above(&self, number: CheckpointNumber) -> CheckpointNumber
        requires { number < self.now.table.latest.number }
        ensures { IsLeastAbove number (kept_numbers (all self.now.table)) result }
    {
        least_above(self.earlier.as_slice(), number).unwrap_or(self.latest.number)
    }

    /// Makes room for one more checkpoint. Refused for memory alone.
    pub fn reserve(&mut self) -> Result<(), AllocError>
        ensures table { self.new.table ≡ self.old.table }
        ensures room { OnOk result (0 < self.new.room) }
        ensures same { OnErr result (self.new ≡ self.old) }
    {
        self.earlier.reserve()
    }

    /// Keeps one more checkpoint, which is now the latest one. Takes no memory.
    pub fn add(&mut self, checkpoint: Checkpoint)
        requires room { 0 < self.old.room }
        requires next { ComesNext checkpoint self.old.table }
        ensures { self.new.table ≡ tables.with_next checkpoint self.old.table }
    {
        let replaced = replace(&mut self.latest, checkpoint);
        self.earlier.push(replaced);
    }

    /// Keeps a checkpoint in this mode. Takes no memory. Refused by `NoCheckpoint` where it isn't kept.
    pub fn set_mode(&mut self, number: CheckpointNumber, mode: Mode) -> Result<(), VolError>
        ensures judged { result ≡ mode_change number (rows self.old.table) }
        ensures changed { OnOk result (self.new.table ≡ tables.with_mode number mode self.old.table) }
        ensures told { OnOk result
            (rows self.new.table ≡ told.with_mode number mode (rows self.old.table)) }
        ensures same { OnErr result (self.new ≡ self.old) }
    {
        if self.latest.number == number {
            self.latest.mode = mode;
            return Ok(());
        }
        let earlier = self.earlier.as_slice();
        match place_of(earlier, number) {
            Some(index) => {
                let checkpoint = earlier[index];
                self.earlier.set(index, Checkpoint { mode, ..checkpoint });
                Ok(())
            }
            None => Err(VolError::NoCheckpoint),
        }
    }

    /// Removes a checkpoint. Takes no memory. Refused by `NoCheckpoint` where it isn't kept, by `IsSnapshot`
    /// where it is a snapshot, and by `Latest` where it is the latest one.
    pub fn remove(&mut self, number: CheckpointNumber) -> Result<(), VolError>
        ensures judged { result ≡ removal number self.old.table.latest.number (rows self.old.table) }
        ensures removed { OnOk result (self.new.table ≡ tables.without (number ∷ []) self.old.table) }
        ensures told { OnOk result
            (rows self.new.table ≡ told.without (number ∷ []) (rows self.old.table)) }
        ensures low { OnOk result (number < self.old.table.latest.number) }
        ensures same { OnErr result (self.new ≡ self.old) }
    {
        let Some(checkpoint) = self.kept(number) else {
            return Err(VolError::NoCheckpoint);
        };
        if let Some(reason) = checkpoint.reason_to_stay(self.latest().number) {
            return Err(reason);
        }
        self.take_out(number);
        Ok(())
    }

    /// Removes the checkpoints of a range, both ends included, but for the snapshots and the latest one, and
    /// answers what became of each. Refused by `BadRange` where the first number is 0 or above the last one,
    /// by `NoCheckpoint` where none of the range is kept, and by `Memory`.
    pub fn remove_range(
        &mut self,
        alloc: Global,
        first: CheckpointNumber,
        last: CheckpointNumber,
    ) -> Result<Range, VolError>
        ensures judged { IsUnlessMemory result
            (range_removal first last self.old.table.latest.number (rows self.old.table)) }
        ensures removed { IfOk result (λ range.
            self.new.table ≡ tables.without range.removed self.old.table) }
        ensures told { IfOk result (λ range.
            rows self.new.table ≡ told.without range.removed (rows self.old.table)) }
        ensures rising { IfOk result (λ range. AllPairs ◌<◌ range.removed) }
        ensures low { IfOk result (λ range.
            All (λ n. n < self.old.table.latest.number) range.removed) }
        ensures same { OnErr result (self.new ≡ self.old) }
    {
        let range = self.judge(alloc, first, last)?;
        self.take_out_between(first, last);
        Ok(range)
    }

    /// Takes out an earlier checkpoint, plain or a snapshot, where one has the number. Takes no memory. That
    /// it may go is for the caller to know: `remove` judges it.
    pub fn take_out(&mut self, number: CheckpointNumber)
        ensures { self.new.table ≡ tables.without (number ∷ []) self.old.table }
    {
        if let Some(index) = place_of(self.earlier.as_slice(), number) {
            self.earlier.remove(index);
        }
    }

    /// Takes out what the removal of a range takes out, which is nothing where it would be refused. Takes no
    /// memory.
    pub fn take_out_range(&mut self, first: CheckpointNumber, last: CheckpointNumber)
        ensures { self.new.table ≡ tables.without (tables.range_in first last self.old.table) self.old.table }
    {
        if !is_no_range(first, last) {
            self.take_out_between(first, last);
        }
    }

    /// Takes out the plain earlier checkpoints between two numbers, both included.
    fn take_out_between(&mut self, first: CheckpointNumber, last: CheckpointNumber)
        ensures taken { self.new.table ≡ tables.without
            (judged_range self.old.table.latest.number
            (rows_between first last (rows self.old.table))).removed
            self.old.table }
        ensures told { rows self.new.table ≡ told.without
            (judged_range self.old.table.latest.number
            (rows_between first last (rows self.old.table))).removed
            (rows self.old.table) }
    {
        self.earlier.retain(|checkpoint| checkpoint.mode.is_snapshot()
            || !checkpoint.is_between(first, last));
    }

    /// What becomes of the checkpoints of a range, which is refused as its removal is.
    fn judge(
        &self,
        alloc: Global,
        first: CheckpointNumber,
        last: CheckpointNumber,
    ) -> Result<Range, VolError>
        ensures judged { IsUnlessMemory result
            (range_removal first last self.now.table.latest.number (rows self.now.table)) }
        ensures found { IfOk result (λ range. range ≡ judged_range self.now.table.latest.number
            (rows_between first last (rows self.now.table))) }
        ensures rising { IfOk result (λ range. AllPairs ◌<◌ range.removed) }
        ensures low { IfOk result (λ range.
            All (λ n. n < self.now.table.latest.number) range.removed) }
    {
        if is_no_range(first, last) {
            return Err(VolError::BadRange);
        }
        let range = judge(alloc, self.earlier.as_slice(), &self.latest, first, last)?;
        if range.is_empty() {
            return Err(VolError::NoCheckpoint);
        }
        Ok(range)
    }

    /// Forgets all checkpoints but the latest one. Takes no memory.
    pub fn forget_earlier(&mut self)
        ensures { self.new.table ≡ tables.with_latest_alone self.old.table }
    {
        self.earlier.clear();
    }

    /// What is told of a kept checkpoint. Takes no memory. Refused by `NoCheckpoint` where it isn't kept.
    pub fn cpinfo(&self, number: CheckpointNumber) -> Result<Row, VolError>
        ensures { result ≡ kept_row number (rows self.now.table) }
    {
        match self.kept(number) {
            Some(checkpoint) => Ok(checkpoint.row()),
            None => Err(VolError::NoCheckpoint),
        }
    }

    /// How many checkpoints and snapshots are kept, and the latest one's number. Takes no memory.
    pub fn cpstat(&self) -> Cpstat
        ensures { result ≡ cpstat_of self.now.table }
    {
        let earlier = self.earlier.as_slice();
        let latest = usize::from(self.latest.mode.is_snapshot());
        Cpstat {
            latest: self.latest.number,
            count: earlier.len() + 1,
            snapshots: count_snapshots(earlier) + latest,
        }
    }

    /// What is told of the checkpoints that a listing shows, in its order. Takes memory for these alone, and
    /// is refused for it alone.
    pub fn listing(&self, alloc: Global, options: &ListOptions) -> Result<Items<Row>, AllocError>
        ensures { IfOk result (λ listed. listed ≡ told.listing options.now (rows self.now.table)) }
    {
        let listed = listed(alloc, self.earlier.as_slice(), &self.latest, options)?;
        Ok(Items::from_vec(listed))
    }
}
