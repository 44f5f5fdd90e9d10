//! What a host keeps of a file beside its bytes.
ghost use Rattle.std.specs.Prelude.{◌≡◌};
ghost use Rattle.nl_manifests.specs.Manifests.{is_time, are_attributes};

/// The moment of the last change of a file, as the host tells it.
#[derive(Clone, Copy)]
pub struct Time {
    /// Whether the seconds count back from 1970. Then they are not 0.
    pub is_negative: bool,
    pub seconds: u64,
    /// What comes to the seconds, below a thousand million.
    pub nanoseconds: u32,
}

/// The mode, the owners and the time of a file, a directory or a link.
#[derive(Clone, Copy)]
pub struct Attributes {
    /// The twelve bits that chmod(2) sets.
    pub mode: u16,
    pub owner: u32,
    pub group: u32,
    pub time: Time,
}

#[tactic(auto, unfolding(crate::specs::Manifests::is_time))]
fn is_time(time: Time) -> bool
    ensures { result ≡ is_time time }
{
    let Time {
        is_negative,
        seconds,
        nanoseconds,
    } = time;
    nanoseconds < 1_000_000_000 && (!is_negative || seconds > 0)
}

/// Whether the mode has twelve bits and the time is one.
#[tactic(auto, unfolding(crate::specs::Manifests::are_attributes))]
pub(crate) fn are_attributes(attributes: Attributes) -> bool
    ensures { result ≡ are_attributes attributes }
{
    attributes.mode < 0o10000 && is_time(attributes.time)
}
