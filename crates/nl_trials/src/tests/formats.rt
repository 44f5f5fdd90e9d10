//! Blocks of the log byte by byte, as the format says: the summary block, nodes and inodes.
use nl_layout::{INODE_SIZE, Inode, InodeEntry, InodeKind, Level, Node, Root, Summary, Tag};
use nl_types::{BLOCK_SIZE, CheckpointNumber, InodeNumber, VirtualNumber};

/// Bytes at an offset.
type Spelling = (usize, &'static [u8]);

/// Zeros with these bytes at their offsets.
fn spelled<const N: usize>(spellings: &[Spelling]) -> [u8; N] {
    let mut bytes = [0; N];
    for (offset, spelling) in spellings {
        for (k, byte) in spelling.iter().enumerate() {
            if let Some(place) = bytes.get_mut(offset.saturating_add(k)) {
                *place = *byte;
            }
        }
    }
    bytes
}

fn tag(number: u64, inode: u64, level: Level, offset: u64) -> Tag {
    Tag {
        number: VirtualNumber::new(number),
        inode: InodeNumber::new(inode),
        level,
        offset,
    }
}

/// Two records: data of a file, and a node of the file of inodes.
const TWO_RECORDS: &[Spelling] = &[
    (0, b"NLSG\x02"),
    (8, &[0x88, 0x77, 0x66, 0x55, 0x44, 0x33, 0x22, 0x11]),
    (16, &[9]),
    (64, &[0x02, 0x01]),
    (72, &[11]),
    (80, &[0xff, 0xff]),
    (96, &[0x03, 0x01]),
    (104, &[6]),
    (112, &[0x08, 0x07, 0x06, 0x05, 0x04, 0x03, 0x02, 0x01]),
    (120, &[2]),
];

fn written_summary() -> [u8; BLOCK_SIZE] {
    let tags = [
        tag(0x0102, 11, Level::new(0), 65_535),
        tag(0x0103, 6, Level::new(2), 0x0102_0304_0506_0708),
    ];
    let mut block = [0xaa; BLOCK_SIZE];
    Summary::new(0x1122_3344_5566_7788, CheckpointNumber::new(9), &tags).write(&mut block);
    block
}

/// Slots 0 and 2, and the next node.
const NODE: &[Spelling] = &[(0, &[0x02, 0x01]), (16, &[3]), (1016, &[0x05, 0x04])];

fn written_node() -> [u8; BLOCK_SIZE] {
    let numbers = [
        VirtualNumber::new(0x0102),
        VirtualNumber::new(0),
        VirtualNumber::new(3),
    ];
    let mut block = [0xaa; BLOCK_SIZE];
    Node::of_chain(&numbers, VirtualNumber::new(0x0405)).write(&mut block);
    block
}

/// A directory of one block, whose chain begins at number 2,571.
const DIRECTORY: &[Spelling] = &[(0, &[2, 1]), (8, &[0x00, 0x04]), (16, &[0x0b, 0x0a])];

/// A file of 67,108,864 bytes, a tree of height 3 with number 2,571 at its top.
const HIGH_FILE: &[Spelling] = &[(0, &[1, 2, 3]), (8, &[0, 0, 0, 4]), (16, &[0x0b, 0x0a])];

const EMPTY_FILE: &[Spelling] = &[(0, &[1])];

/// Whether the bytes are what an entry is written as.
fn spells(entry: InodeEntry, spelling: &[Spelling]) -> bool {
    let mut bytes = [0xaa; INODE_SIZE];
    entry.write(&mut bytes);
    bytes == spelled::<INODE_SIZE>(spelling)
}

fn in_use(kind: InodeKind, root: Root, size: u64) -> InodeEntry {
    InodeEntry::InUse(Inode { kind, root, size })
}

fn spell_inodes() -> bool {
    let chain = Root::Chain(VirtualNumber::new(0x0a0b));
    let tree = Root::Tree(Level::new(3), VirtualNumber::new(0x0a0b));
    spells(in_use(InodeKind::Directory, chain, 1024), DIRECTORY)
        && spells(in_use(InodeKind::File, tree, 67_108_864), HIGH_FILE)
        && spells(in_use(InodeKind::File, Root::Empty, 0), EMPTY_FILE)
        && spells(InodeEntry::Free, &[])
}

/// Whether each block is written as the format says.
pub(crate) fn blocks_are_spelled_byte_by_byte() -> bool {
    written_summary() == spelled::<BLOCK_SIZE>(TWO_RECORDS)
        && written_node() == spelled::<BLOCK_SIZE>(NODE)
        && spell_inodes()
}
