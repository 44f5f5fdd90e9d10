//! A volume that is opened for a command, and what is wished of it.
ghost use Rattle.std.specs.Prelude.{IfErr, IfOk};
ghost use Rattle.nl_keep_pen.specs.Opened.{IsOpenedOf};
ghost use Rattle.nl_backups.specs.Hosts.{Holds};
ghost use Rattle.nl_backups.specs.Readings.{Ascend, HasRows};
ghost use Rattle.nl_backups.specs.Refusals.{RefusesAsking};

use crate::hosts::Asker;
use crate::refusals::Refusal;
use nl_keep_pen::OpenedVolume;
use nl_types::{Items, Row};
use std::alloc::Global;

/// Opens the volume of an image, and answers what is told of all its checkpoints, the minor ones too, the oldest
/// first; and what is wished of it.
pub(crate) fn opened_with_rows<W, A: Asker<W>>(
    alloc: Global,
    image: &[u8],
    asker: &mut A,
) -> Result<(OpenedVolume, Items<Row>, W), Refusal>
    ensures opened { IfOk result (λ done. IsOpenedOf image.now done.0.volume.pen) }
    ensures rows { IfOk result (λ done. HasRows done.1 image.now) }
    ensures ascend { IfOk result (λ done. Ascend done.1) }
    ensures wished { IfOk result (λ done. Holds (A.wish asker.old) done.2) }
    ensures refused { IfErr result (RefusesAsking image.now) }
{
    nl_core::laws::pens_of_one_image_mean_one_world();
    let mut volume = OpenedVolume::open(alloc, image)?;
    let rows = volume.rows()?;
    let wish = asker.asked(&volume, rows.as_slice())?;
    Ok((volume, rows, wish))
}

/// The same, where the rows aren't needed any more.
pub(crate) fn opened_for<W, A: Asker<W>>(
    alloc: Global,
    image: &[u8],
    asker: &mut A,
) -> Result<(OpenedVolume, W), Refusal>
    ensures opened { IfOk result (λ done. IsOpenedOf image.now done.0.volume.pen) }
    ensures wished { IfOk result (λ done. Holds (A.wish asker.old) done.1) }
    ensures refused { IfErr result (RefusesAsking image.now) }
{
    let (volume, _, wish) = opened_with_rows(alloc, image, asker)?;
    Ok((volume, wish))
}
