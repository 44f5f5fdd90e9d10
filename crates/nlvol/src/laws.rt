//! What sessions know of their volumes, as contracts of functions that do nothing.
ghost use Rattle.nlvol.specs.Cleanings.{CleaningsLeaveNothingDead};
ghost use Rattle.nlvol.specs.Laws.{SavedRunsComeBack, SavedVolumesComeBack};
ghost use Rattle.nlvol.specs.SessionLaws.{RunsFollowWorlds, SessionsFollowWorlds, SharedVolumesFollowWorlds};
ghost use Rattle.nlvol.specs.SharedLaws.{KeptVolumesAreBeside, NewVolumesAreBeside};

use std::io::Write;

/// A new shared volume is beside a new world, and that of an image beside the world that its pen means. Where
/// one is beside a world, each event on it is answered as that of plain files with whole copies, and it is
/// beside a world then too. So are steps of rounds.
pub fn shared_volumes_follow_worlds()
    ensures new { NewVolumesAreBeside }
    ensures kept { KeptVolumesAreBeside }
    ensures follow { SharedVolumesFollowWorlds }
{
    nl_types::laws::copies_stay();
    nl_types::laws::mounts_stay();
    nl_publish::laws::locked_runs_lead_on();
}

/// Whatever lines a session does on a volume that is beside a world, they lead to a world that it is beside
/// then, and each event, each reply and each text on the way is that of the worlds between.
pub fn sessions_follow_worlds()
    ensures { SessionsFollowWorlds }
{
    shared_volumes_follow_worlds();
}

/// So does the script of each run, from the world that its pen means. What it leaves means the world that the
/// lines lead to, without mounts.
pub fn runs_follow_worlds<O: Write>()
    ensures { RunsFollowWorlds O }
{
    sessions_follow_worlds();
}

/// A line that cleans each dirty segment, and is refused nothing, leaves no number in use that isn't needed,
/// but in segments that were active or in error.
pub fn cleanings_leave_nothing_dead()
    ensures { CleaningsLeaveNothingDead }
{
    nl_cleaner::laws::rounds_leave_nothing_dead();
}

/// A volume that was saved comes back as it was, but that no mount number was given yet.
pub fn saved_volumes_come_back()
    ensures { SavedVolumesComeBack }
{
    nl_image::laws::store_images_have_the_present_mark();
    nl_core::laws::pens_of_one_image_mean_one_world();
}

/// So does what a run left: what is opened of its image means the world that it left, but that something dirty
/// is in a plain checkpoint of the run's last moment, and no mount number was given yet.
pub fn saved_runs_come_back()
    ensures { SavedRunsComeBack }
{
    saved_volumes_come_back();
}
