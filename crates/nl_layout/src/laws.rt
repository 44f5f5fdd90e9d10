//! What the definitions of spellings mean, as contracts of functions that do nothing.
ghost use Rattle.nl_layout.specs.Checkpoints as checkpoints;
ghost use Rattle.nl_layout.specs.Laws.{SpellOne};
ghost use Rattle.nl_layout.specs.Segment as segment;
ghost use Rattle.nl_layout.specs.Superblock as superblock;

/// What stands in an image is told by its bytes: they spell one superblock, one entry of a segment and one of
/// a checkpoint.
pub fn bytes_spell_one_value()
    ensures superblocks { SpellOne superblock.Spells }
    ensures segments { SpellOne segment.Spells }
    ensures checkpoints { SpellOne checkpoints.Spells }
{}
