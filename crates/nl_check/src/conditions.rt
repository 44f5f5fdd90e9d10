//! The conditions of an image.
ghost use Rattle.std.specs.Prelude.{◌≡◌};
ghost use Rattle.nl_check.specs.ImageConditions.{number_of};

/// A condition that bytes meet if they are an image. They are judged in this order.
#[derive(Clone, Copy)]
pub enum ImageCondition {
    /// The bytes begin with a mark.
    Mark,
    /// A superblock divides a volume within its limits.
    Division,
    /// There are as many bytes as that has.
    Length,
    /// The segments are tidy.
    Segments,
    /// The checkpoints rise.
    Checkpoints,
    /// Each number in use has a period, and a block of its own.
    Numbers,
    /// The used parts of segments are whole logs.
    Logs,
    /// All roots, nodes and blocks of inodes have their shape.
    Shapes,
    /// The inodes of each checkpoint hold a tree.
    Trees,
    /// Each checkpoint meets just the numbers whose periods have it.
    Periods,
    /// All that is not used is zero.
    Zeros,
}

impl ImageCondition {
    /// The number that `BadImage` has for it.
    pub fn number(self) -> u8
        ensures { result ≡ number_of self }
    {
        match self {
            ImageCondition::Mark => 1,
            ImageCondition::Division => 2,
            ImageCondition::Length => 3,
            ImageCondition::Segments => 4,
            ImageCondition::Checkpoints => 5,
            ImageCondition::Numbers => 6,
            ImageCondition::Logs => 7,
            ImageCondition::Shapes => 8,
            ImageCondition::Trees => 9,
            ImageCondition::Periods => 10,
            ImageCondition::Zeros => 11,
        }
    }
}
