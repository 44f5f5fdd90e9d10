//! What a caller's array gets.
ghost use Rattle.std.specs.Prelude.{◌≡◌, map};
ghost use Rattle.nl_c.specs.Copying.{filled, fitting, row_told};

use nl_types::Row;

/// A kept checkpoint, as it is told. Flag 1 is that of a snapshot, and flag 2 that of a checkpoint which the
/// volume made by itself.
#[repr(C)]
#[derive(Clone, Copy)]
pub struct CheckpointRow {
    pub number: u64,
    /// The moment in whole seconds.
    pub stamp: u64,
    /// How many inodes are in use.
    pub inodes: u64,
    pub flags: u64,
}

/// Copies as many bytes as fit, and answers how many.
pub(crate) fn copy_bytes(bytes: &[u8], into: &mut [u8]) -> usize
    ensures copied { into.new ≡ filled into.old bytes.now }
    ensures count { result ≡ fitting into.old bytes.now }
{
    let count = into.len().min(bytes.len());
    let (front, _) = into.split_at_mut(count);
    front.copy_from_slice(&bytes[..count]);
    count
}

fn row_told(row: &Row) -> CheckpointRow
    ensures { result ≡ row_told row.now }
{
    let snapshot = if row.mode.is_snapshot() { 1 } else { 0 };
    let minor = if row.minor { 2 } else { 0 };
    CheckpointRow {
        number: row.number.get(),
        stamp: row.stamp,
        inodes: row.inodes,
        flags: snapshot + minor,
    }
}

/// Copies as many rows as fit, and answers how many.
#[tactic(auto, using(crate::proofs::Rows::row_more))]
pub(crate) fn copy_rows(rows: &[Row], into: &mut [CheckpointRow]) -> usize
    ensures copied { into.new ≡ filled into.old (map row_told rows.now) }
    ensures count { result ≡ fitting into.old rows.now }
{
    let count = into.len().min(rows.len());
    for index in 0..count {
        into[index] = row_told(&rows[index]);
    }
    count
}
