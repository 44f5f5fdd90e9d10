//! What of a checkpoint fails one of the conditions 8 to 10: an inode, or a number that no inode reaches.
use crate::pages::ImagePages;
use crate::searching::{CheckpointFiles, Search, Walked, inode_file};
use nl_blocktree::Met;
use nl_layout::CheckpointEntry;
use nl_types::{InodeNumber, VirtualNumber, VolError};
use nl_vstore::VRead;
use std::alloc::Global;
use std::fmt;

/// What of a checkpoint fails a condition.
#[derive(Clone, Copy)]
pub enum Culprit {
    Inode(InodeNumber),
    /// A virtual block number that no inode reaches.
    Number(VirtualNumber),
}

impl Culprit {
    /// The inode, where it is one.
    pub fn inode(&self) -> Option<InodeNumber> {
        match self {
            Culprit::Inode(number) => Some(*number),
            Culprit::Number(_) => None,
        }
    }
}

impl fmt::Display for Culprit {
    fn fmt<W: fmt::Write>(&self, f: &mut fmt::Formatter<W>) -> fmt::Result {
        match self {
            Culprit::Inode(number) => write!(f, "inode {}", number.get()),
            Culprit::Number(number) => write!(f, "virtual block number {}", number.get()),
        }
    }
}

// ---- condition 8

/// Looks for nothing but a file that can't be met.
#[derive(Clone, Copy)]
struct Shapes;

impl Search for Shapes {
    fn is_in_inode_file(&self, _: &Met) -> bool {
        false
    }

    fn is_in(&mut self, _: &Walked, _: &Met) -> Result<bool, VolError> {
        Ok(false)
    }
}

// ---- condition 10

/// Looks for the inode that meets a number.
#[derive(Clone, Copy)]
struct Meeting(VirtualNumber);

impl Search for Meeting {
    fn is_in_inode_file(&self, met: &Met) -> bool {
        met.has(self.0)
    }

    fn is_in(&mut self, _: &Walked, met: &Met) -> Result<bool, VolError> {
        Ok(met.has(self.0))
    }
}

// ---- all of them

impl CheckpointFiles<'_> {
    fn misshapen(&self) -> Result<Option<InodeNumber>, VolError> {
        let mut met = self.nothing_met()?;
        self.first(&mut met, &mut Shapes)
    }

    /// Whether the period of a number has the checkpoint.
    fn is_in_period(&self, number: VirtualNumber) -> bool {
        match self.pages.period(number) {
            Some(period) => {
                let is_before_end = match period.end {
                    Some(end) => self.checkpoint < end,
                    None => true,
                };
                period.start <= self.checkpoint && is_before_end
            }
            None => false,
        }
    }

    /// The first number that is met, or not, against its period.
    fn first_against(&self, met: &Met, is_met: bool) -> Option<VirtualNumber> {
        for place in 0..met.len() {
            let number = VirtualNumber::new(place as u64);
            if met.has(number) == is_met && self.is_in_period(number) != is_met {
                return Some(number);
            }
        }
        None
    }

    /// The inode that meets the first number whose period has not the checkpoint, or else the first number
    /// whose period has it and that isn't met.
    fn against_periods(&self) -> Result<Option<Culprit>, VolError> {
        let mut met = self.nothing_met()?;
        self.first(&mut met, &mut Shapes)?;
        let Some(number) = self.first_against(&met, true) else {
            return Ok(self.first_against(&met, false).map(Culprit::Number));
        };
        met.clear();
        let found = self.first(&mut met, &mut Meeting(number))?;
        Ok(found.map(Culprit::Inode))
    }
}

/// What of a checkpoint fails a condition of 8 to 10, which is the first that it fails, or the other one of 9
/// and 10 does too. None where that isn't found, as where its entry tells a wrong count.
pub(crate) fn culprit_of(
    alloc: Global,
    pages: &ImagePages,
    entry: &CheckpointEntry,
    condition: u8,
) -> Result<Option<Culprit>, VolError> {
    let Some(root) = entry.root.root() else {
        return Ok(Some(Culprit::Inode(inode_file())));
    };
    let files = CheckpointFiles {
        alloc,
        pages,
        checkpoint: entry.number,
        root,
    };
    match condition {
        8 => Ok(files.misshapen()?.map(Culprit::Inode)),
        9 => Ok(files.unsound_inode()?.map(Culprit::Inode)),
        _ => files.against_periods(),
    }
}
