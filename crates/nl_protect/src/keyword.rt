//! The keywords of a configuration.
ghost use Rattle.std.specs.Prelude.{◌≡◌};
ghost use Rattle.std.specs.Str.{bytes_eq};
ghost use Rattle.nl_protect.specs.Configuration.{keyword_in, spelling};

/// A keyword of nilfs_cleanerd.conf(5).
#[derive(Clone, Copy)]
pub enum Keyword {
    ProtectionPeriod,
    MinCleanSegments,
    MaxCleanSegments,
    CleanCheckInterval,
    SelectionPolicy,
    SegmentsPerClean,
    UrgentSegmentsPerClean,
    CleaningInterval,
    UrgentCleaningInterval,
    RetryInterval,
    MinReclaimableBlocks,
    UrgentMinReclaimableBlocks,
    UseMmap,
    UseSetSuinfo,
    LogPriority,
}

const KEYWORDS: [Keyword; 15] = [
    Keyword::ProtectionPeriod,
    Keyword::MinCleanSegments,
    Keyword::MaxCleanSegments,
    Keyword::CleanCheckInterval,
    Keyword::SelectionPolicy,
    Keyword::SegmentsPerClean,
    Keyword::UrgentSegmentsPerClean,
    Keyword::CleaningInterval,
    Keyword::UrgentCleaningInterval,
    Keyword::RetryInterval,
    Keyword::MinReclaimableBlocks,
    Keyword::UrgentMinReclaimableBlocks,
    Keyword::UseMmap,
    Keyword::UseSetSuinfo,
    Keyword::LogPriority,
];

impl Keyword {
    fn name(self) -> &'static str
        ensures { result.now ≡ spelling self }
    {
        match self {
            Keyword::ProtectionPeriod => "protection_period",
            Keyword::MinCleanSegments => "min_clean_segments",
            Keyword::MaxCleanSegments => "max_clean_segments",
            Keyword::CleanCheckInterval => "clean_check_interval",
            Keyword::SelectionPolicy => "selection_policy",
            Keyword::SegmentsPerClean => "nsegments_per_clean",
            Keyword::UrgentSegmentsPerClean => "mc_nsegments_per_clean",
            Keyword::CleaningInterval => "cleaning_interval",
            Keyword::UrgentCleaningInterval => "mc_cleaning_interval",
            Keyword::RetryInterval => "retry_interval",
            Keyword::MinReclaimableBlocks => "min_reclaimable_blocks",
            Keyword::UrgentMinReclaimableBlocks => "mc_min_reclaimable_blocks",
            Keyword::UseMmap => "use_mmap",
            Keyword::UseSetSuinfo => "use_set_suinfo",
            Keyword::LogPriority => "log_priority",
        }
    }
}

/// Whether a word is this text.
pub(crate) fn is_text(word: &[u8], text: &str) -> bool
    ensures { result ≡ bytes_eq word.now text.now }
{
    word == text.as_bytes()
}

fn spells(word: &[u8], keyword: Keyword) -> bool
    ensures { result ≡ bytes_eq word.now (spelling keyword) }
{
    is_text(word, keyword.name())
}

/// The keyword that a word spells.
pub(crate) fn keyword_of(word: &[u8]) -> Option<Keyword>
    ensures { result ≡ keyword_in word.now }
{
    KEYWORDS
        .iter()
        .find(|keyword| spells(word, **keyword))
        .copied()
}
