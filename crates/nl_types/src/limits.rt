//! The limits of a volume, each under the name of its definition in `specs/Plain/Limits`.
ghost use Rattle.std.specs.Prelude.{◌≡◌};
ghost use Rattle.nl_types.specs.Plain.Limits.{fewest_segments, segment_limit, fewest_blocks, segment_block_limit, volume_block_limit, file_limit, file_block_limit, path_limit, root_inode, first_inode, last_inode, inode_limit, inode_file_number, tree_limit, name_limit, path_length_limit};

/// The least and the most segments of a volume.
pub const FEWEST_SEGMENTS: u32 = 8;

pub const SEGMENT_LIMIT: u32 = 4096;

/// The least and the most blocks of a segment.
pub const FEWEST_BLOCKS: u32 = 4;

pub const SEGMENT_BLOCK_LIMIT: u32 = 2048;

/// The most blocks of a volume.
pub const VOLUME_BLOCK_LIMIT: u32 = 262_144;

/// The most bytes of a file.
pub const FILE_LIMIT: u64 = 67_108_864;

/// The most paths of a tree beside its root.
pub const PATH_LIMIT: usize = 524_277;

/// The root's inode number, and the least and the greatest of all others.
pub const ROOT_INODE: u64 = 2;

pub const FIRST_INODE: u64 = 11;

pub const LAST_INODE: u64 = 524_287;

/// Inode numbers stay below this one.
pub const INODE_LIMIT: usize = 524_288;

/// The number of the file of inodes.
pub const INODE_FILE_NUMBER: u64 = 6;

/// The most blocks of a file.
pub const FILE_BLOCK_LIMIT: u64 = 65_536;

/// The places below the top of the highest tree.
pub const TREE_LIMIT: u64 = 2_097_152;

/// The most bytes of a name. Behind its first slash a path has fewer bytes than the other one.
pub const NAME_LIMIT: usize = 255;

pub const PATH_LENGTH_LIMIT: usize = 4095;

/// Each constant is the limit that its definition names.
pub fn limits_are_those_defined()
    ensures segments { (FEWEST_SEGMENTS ≡ fewest_segments) × (SEGMENT_LIMIT ≡ segment_limit) }
    ensures blocks { (FEWEST_BLOCKS ≡ fewest_blocks) × (SEGMENT_BLOCK_LIMIT ≡ segment_block_limit) }
    ensures volume { VOLUME_BLOCK_LIMIT ≡ volume_block_limit }
    ensures files { (FILE_LIMIT ≡ file_limit) × (FILE_BLOCK_LIMIT ≡ file_block_limit) }
    ensures paths { PATH_LIMIT ≡ path_limit }
    ensures root { ROOT_INODE ≡ root_inode }
    ensures inodes { (FIRST_INODE ≡ first_inode) × (LAST_INODE ≡ last_inode) }
    ensures inode_numbers { (INODE_LIMIT ≡ inode_limit) × (INODE_FILE_NUMBER ≡ inode_file_number) }
    ensures tree { TREE_LIMIT ≡ tree_limit }
    ensures names { (NAME_LIMIT ≡ name_limit) × (PATH_LENGTH_LIMIT ≡ path_length_limit) }
{}
