//! Numbers that a checkpoint has no more where the one before it had them: they are met no more.
ghost use Rattle.std.specs.Prelude.{◌≡◌, ◌≢◌, ℕ, suc, length, IfErr, OnOk};
ghost use Rattle.std.specs.List.{Contains};
ghost use Rattle.nl_types.specs.declared.error.VolError;
ghost use Rattle.nl_types.specs.Blocks.Roots.{OfChain, Root as AnyRoot, Tree as AnyTree, kind_of};
ghost use Rattle.nl_layout.specs.Root.{root_of};
ghost use Rattle.nl_files.specs.CheckpointRoots.{inode_root};
ghost use Rattle.nl_check.specs.Shapes.{At};
ghost use Rattle.nl_blocktree.specs.FileShapes.{HasShape};
ghost use Rattle.nl_check.specs.declared.differing.ChangedFile.{ChangedFile};
ghost use Rattle.nl_check.specs.Private.BesideTrees.{HasLeft, Leaves, StandAt, StandsAnew, TellsOn};
ghost use Rattle.nl_check.specs.Private.ChangedFiles.{IsLostIn, StandsOf};

use crate::differing::{ChangedFile, root_of_file};
use crate::subtrees::{is_named, page_under, slot_of, top_beside};
use nl_blocktree::Met;
use nl_layout::{Root, SLOTS};
use nl_types::{VirtualNumber, VolError};
use nl_vstore::VRead;

/// Leaves a number: it is met no more, and told among those that changed. Refused by `Memory` alone.
fn leave(
    met: &mut Met,
    changed: &mut Vec<VirtualNumber>,
    number: VirtualNumber,
) -> Result<(), VolError>
    ensures left { OnOk result (Leaves number met.old met.new) }
    ensures told { OnOk result (TellsOn met.old changed.old.items met.new changed.new.items) }
    ensures refused { IfErr result (λ e. e ≡ VolError.Memory) }
    ensures count { length met.new ≡ length met.old }
{
    if number.get() < met.len() as u64 {
        met.set(number, false);
    }
    changed.push(number)?;
    Ok(())
}

/// Leaves the numbers of a tree from a block down, but for those that the file beside it has at their places.
/// Refused by `Memory` alone.
fn leave_below<V: VRead>(
    store: &V,
    met: &mut Met,
    changed: &mut Vec<VirtualNumber>,
    level: u8,
    number: VirtualNumber,
    beside: Option<VirtualNumber>,
) -> Result<(), VolError>
    ensures left { OnOk result ((height top offset : ℕ) (other : AnyRoot)
        → StandAt (V.pages store.now) height top other level offset number beside
        → HasLeft (ℕ × ℕ)
        (StandsAnew (V.pages store.now) (AnyTree height top) other level offset (suc offset))
        met.old met.new) }
    ensures told { OnOk result (TellsOn met.old changed.old.items met.new changed.new.items) }
    ensures refused { IfErr result (λ e. e ≡ VolError.Memory) }
    ensures count { length met.new ≡ length met.old }
{
    if is_named(&beside, number) {
        return Ok(());
    }
    leave(met, changed, number)?;
    if level == 0 {
        return Ok(());
    }
    let page = store.page(number);
    let other = page_under(store, beside);
    for slot in 0..SLOTS {
        if let Some(child) = slot_of(page, slot) {
            leave_below(store, met, changed, level - 1, child, slot_of(other, slot))?;
        }
    }
    Ok(())
}

/// Leaves the numbers of a file that it has no more at their places where it became another: all, but for
/// those of a tree that stand at their places in another one of its height. Refused by `Memory` alone.
pub(crate) fn leave_file<V: VRead>(
    store: &V,
    met: &mut Met,
    changed: &mut Vec<VirtualNumber>,
    before: Root,
    now: Root,
) -> Result<(), VolError>
    requires no_chain { kind_of (root_of before) ≢ OfChain }
    requires shape { HasShape (V.pages store.now) (root_of before) }
    ensures left { OnOk result
        (HasLeft (ℕ × ℕ) (IsLostIn (V.pages store.now) (root_of before) (root_of now)) met.old met.new) }
    ensures told { OnOk result (TellsOn met.old changed.old.items met.new changed.new.items) }
    ensures refused { IfErr result (λ e. e ≡ VolError.Memory) }
    ensures count { length met.new ≡ length met.old }
{
    match before {
        Root::Empty => Ok(()),
        Root::Chain(_) => Ok(()),
        Root::Tree(height, top) => {
            leave_below(
                store,
                met,
                changed,
                height.get(),
                top,
                top_beside(height, now),
            )
        }
    }
}

/// Leaves the numbers that each file has no more at their places. Refused by `Memory` alone.
pub(crate) fn leave_files<V: VRead>(
    store: &V,
    met: &mut Met,
    changed: &mut Vec<VirtualNumber>,
    files: &[ChangedFile],
) -> Result<(), VolError>
    requires no_chain { (f : ChangedFile) → Contains files.now f
        → kind_of (inode_root f.earlier) ≢ OfChain }
    requires shape { (f : ChangedFile) → Contains files.now f
        → HasShape (V.pages store.now) (inode_root f.earlier) }
    ensures left { OnOk result
        (HasLeft At (StandsOf (IsLostIn (V.pages store.now)) files.now (length files.now))
        met.old met.new) }
    ensures told { OnOk result (TellsOn met.old changed.old.items met.new changed.new.items) }
    ensures refused { IfErr result (λ e. e ≡ VolError.Memory) }
    ensures count { length met.new ≡ length met.old }
{
    for file in files {
        let before = root_of_file(&file.earlier);
        let now = root_of_file(&file.later);
        leave_file(store, met, changed, before, now)?;
    }
    Ok(())
}
