//! What backups, restores and forgetting come to over many runs, as contracts of functions that do nothing.
ghost use Rattle.nl_keep_pen.specs.Folders.{FoldersComeBack};
ghost use Rattle.nl_keep_pen.specs.History.{ChangesAreOne};
ghost use Rattle.nl_keep_pen.specs.Runs.{ArrivalsAreKept, BackupsComeBack, BackupsKeepThrough, BringingKeepsThrough, ForgetsKeepThrough, ForgottenAreGone, ImagesHaveThePresentMark, SnapshotsHaveTheMoment};

/// The image of a closed pen has the present mark.
pub fn images_have_the_present_mark()
    ensures { ImagesHaveThePresentMark }
{
    nl_image::laws::store_images_have_the_present_mark();
}

/// A backup keeps all checkpoints that there were, forgetting keeps all others, and so does one that brings some.
pub fn runs_keep_checkpoints()
    ensures backups { BackupsKeepThrough }
    ensures forgets { ForgetsKeepThrough }
    ensures bringing { BringingKeepsThrough }
{
    nl_keep::laws::stores_keep_copies();
    nl_keep::laws::forgets_keep_others();
}

/// What comes from another volume is kept with its tree.
pub fn arrivals_are_kept()
    ensures { ArrivalsAreKept }
{
    nl_keep::laws::stores_keep_copies();
}

/// What was forgotten is gone from the image that is made, whatever world that means.
pub fn forgotten_are_gone()
    ensures { ForgottenAreGone }
{
    nl_core::laws::pens_of_one_image_mean_one_world();
    nl_keep::laws::forgets_keep_others();
}

/// A snapshot has the date of its moment, or the latest one that there was where that is later.
pub fn snapshots_have_the_moment()
    ensures { SnapshotsHaveTheMoment }
{
    nl_core::laws::pens_of_one_image_mean_one_world();
}

/// What was backed up is what is restored, however many runs that keep it came between: backups, and forgets
/// of others.
pub fn backups_come_back()
    ensures { BackupsComeBack }
{
    images_have_the_present_mark();
}

/// A folder of the host that was sealed and backed up is what is opened of what is restored, with its modes,
/// times, owners and links, however many runs that keep it came between.
pub fn folders_come_back()
    ensures { FoldersComeBack }
{
    backups_come_back();
    nl_manifests::laws::trees_show_one();
}

/// Of a list of checkpoints there is one list of those that show a change.
pub fn changes_are_one()
    ensures { ChangesAreOne }
{}
