//! Why a command isn't done.
use crate::hosts::HostFault;
use nl_keep::KeepError;
use nl_manifests::SealError;
use nl_shown::RevertError;
use nl_types::VolError;
use std::alloc::AllocError;

/// Why a command isn't done. The image stays as it was.
#[derive(Clone, Copy)]
pub enum Refusal {
    /// The host doesn't give or take something, or who asked for the command doesn't go on.
    Host,
    /// The volume of the image refuses it, or there is no memory.
    Volume(VolError),
    /// No tree of a volume keeps the folder, or there is no memory.
    Folder(SealError),
    /// What was read or is to be stored is no tree.
    Disordered,
    /// Nothing is there at the path.
    NothingThere,
    /// A file or a link stands above the path now, where a folder has to be.
    NoFolder,
    /// The file of pins is none.
    BadPins,
    /// The checkpoint isn't pinned.
    NotPinned,
}

impl From<HostFault> for Refusal {
    ghost use Rattle.std.specs.Prelude.{◌≡◌};
    ghost use Rattle.nl_backups.specs.declared.refusals.Refusal.TheVariants.{Host};

    ghost from_gives = { λ _ e. e ≡ Host };

    fn from(_: HostFault) -> Refusal {
        Refusal::Host
    }
}

impl From<VolError> for Refusal {
    ghost use Rattle.std.specs.Prelude.{◌≡◌};
    ghost use Rattle.nl_backups.specs.declared.refusals.Refusal.TheVariants.{Volume};

    ghost from_gives = { λ error e. e ≡ Volume error };

    fn from(error: VolError) -> Refusal {
        Refusal::Volume(error)
    }
}

impl From<AllocError> for Refusal {
    ghost use Rattle.std.specs.Prelude.{◌≡◌};
    ghost use Rattle.nl_types.specs.declared.error.VolError.TheVariants.{Memory};
    ghost use Rattle.nl_backups.specs.declared.refusals.Refusal.TheVariants.{Volume};

    ghost from_gives = { λ _ e. e ≡ Volume Memory };

    fn from(_: AllocError) -> Refusal {
        Refusal::Volume(VolError::Memory)
    }
}

impl From<SealError> for Refusal {
    ghost use Rattle.std.specs.Prelude.{◌≡◌};
    ghost use Rattle.nl_backups.specs.declared.refusals.Refusal.TheVariants.{Folder};

    ghost from_gives = { λ error e. e ≡ Folder error };

    fn from(error: SealError) -> Refusal {
        Refusal::Folder(error)
    }
}

impl From<KeepError> for Refusal {
    ghost use Rattle.std.specs.Prelude.{◌≡◌};
    ghost use Rattle.nl_backups.specs.Passed.{passed_on};

    ghost from_gives = { λ error e. e ≡ passed_on error };

    fn from(error: KeepError) -> Refusal {
        match error {
            KeepError::Refused(error) => Refusal::Volume(error),
            KeepError::Disordered => Refusal::Disordered,
        }
    }
}

impl From<RevertError> for Refusal {
    ghost use Rattle.std.specs.Prelude.{◌≡◌};
    ghost use Rattle.nl_backups.specs.Passed.{brought_back};

    ghost from_gives = { λ error e. e ≡ brought_back error };

    fn from(error: RevertError) -> Refusal {
        match error {
            RevertError::Memory => Refusal::Volume(VolError::Memory),
            RevertError::NothingThere => Refusal::NothingThere,
            RevertError::NoFolder => Refusal::NoFolder,
        }
    }
}
