//! The nodes above the data of a file.
ghost use Rattle.std.specs.Prelude.{◌≡◌, ◌<◌, ◌≤◌, ◌^◌, ◌*◌, ◌++◌, ℕ, List, drop, length, slice_index, All, IfSome, Some};
ghost use Rattle.byteorder.specs.Endian.{little_bytes};
ghost use Rattle.nl_types.specs.Blocks.Roots.{numbered, slot};
ghost use Rattle.nl_layout.specs.Node.{Spells, slots_bytes, slots_at};

use byteorder::{ByteOrder, LittleEndian};
use nl_types::{BLOCK_SIZE, Page, VirtualNumber};
use std::marker::Model;

/// The slots of a node.
pub const SLOTS: usize = 128;

/// The slot of a chain's node that names the next node.
pub const NEXT: usize = 127;

const SLOT_SIZE: usize = 8;

/// A node of a chain or a tree: 128 slots, each a virtual number, or 0 where it names nothing. Contracts see
/// the list of the numbers. Its block has them one after the other, in 8 bytes each, in little endian.
#[derive(Drop)]
pub struct Node {
    slots: [VirtualNumber; SLOTS],
}

impl Model for Node {
    ghost use Rattle.std.specs.Prelude.{◌≡◌, List, ℕ, length};

    ghost Value = { List ℕ };

    ghost view = { λ node. node.slots };

    ghost invariant = { λ node. length node.slots ≡ 128 };
}

impl Node {
    pub fn new(slots: [VirtualNumber; SLOTS]) -> Self
        ensures { result ≡ slots }
    {
        Self { slots }
    }

    /// The node of a chain whose first slots have the numbers, and whose last one names the next node, 0
    /// where there is none.
    pub fn of_chain(numbers: &[VirtualNumber], next: VirtualNumber) -> Self
        requires { length numbers.now ≤ 127 }
        ensures data { (s : ℕ) → s < 127 → slice_index result s ≡ slice_index numbers.now s }
        ensures next { slice_index result 127 ≡ next }
    {
        let mut slots = [VirtualNumber::new(0); SLOTS];
        slots[..numbers.len()].copy_from_slice(numbers);
        slots[NEXT] = next;
        Node { slots }
    }

    pub fn slots(&self) -> &[VirtualNumber; SLOTS]
        ensures slots { result.now ≡ self.now }
        ensures count { length result.now ≡ 128 }
    {
        &self.slots
    }

    /// The node that the bytes spell: every block of 1,024 bytes spells one, and other bytes spell none.
    pub fn read(bytes: &[u8]) -> Option<Self>
        ensures found { IfSome result (Spells bytes.now) }
        ensures only { (slots : List ℕ) → Spells bytes.now slots → result ≡ Some slots }
    {
        if bytes.len() != BLOCK_SIZE {
            return None;
        }
        Some(Node {
            slots: slots_in(bytes),
        })
    }

    /// Fills a block with the one spelling of the node, from which `read` gives it back.
    pub fn write(&self, out: &mut [u8])
        requires { length out.old ≡ 1024 }
        ensures spells { Spells out.new self.now }
        ensures named { (s : ℕ) → s < 128 → slot s out.new ≡ numbered (slice_index self.now s) }
    {
        write_slots(&self.slots, out);
    }

    /// The numbers in the slots of a node's page, 0 where one names nothing.
    pub fn slots_in_page(page: &Page) -> [VirtualNumber; SLOTS]
        ensures slots { (s : ℕ) → s < 128 → numbered (slice_index result s) ≡ slot s page.now }
        ensures count { length result ≡ 128 }
    {
        slots_in(page.bytes())
    }

    /// What one slot of a node's page names.
    pub fn slot_in(page: &Page, at: usize) -> Option<VirtualNumber>
        requires { at < 128 }
        ensures { result ≡ slot at page.now }
    {
        let number = LittleEndian::read_u64(&page.bytes()[SLOT_SIZE * at..]);
        if number == 0 {
            None
        } else {
            Some(VirtualNumber::new(number))
        }
    }
}

fn slot_bytes(number: VirtualNumber) -> [u8; SLOT_SIZE]
    ensures bytes { result ≡ little_bytes 8 number }
    ensures fits { number < 2 ^ 64 }
{
    let mut bytes = [0; SLOT_SIZE];
    LittleEndian::write_u64(&mut bytes, number.get());
    bytes
}

/// Writes the numbers one after the other.
fn write_slots(slots: &[VirtualNumber], out: &mut [u8])
    requires { 8 * length slots.now ≤ length out.old }
    ensures bytes { out.new ≡ slots_bytes slots.now ++ drop (8 * length slots.now) out.old }
    ensures fit { All (λ number. number < 2 ^ 64) slots.now }
{
    for (s, number) in slots.iter().enumerate() {
        let from = SLOT_SIZE * s;
        out[from..from + SLOT_SIZE].copy_from_slice(&slot_bytes(*number));
    }
}

/// The numbers in the slots of a block.
fn slots_in(bytes: &[u8]) -> [VirtualNumber; SLOTS]
    requires { length bytes.now ≡ 1024 }
    ensures slots { result ≡ slots_at 128 bytes.now }
    ensures count { length result ≡ 128 }
    ensures spelled { slots_bytes result ≡ bytes.now }
    ensures fit { All (λ number. number < 2 ^ 64) result }
{
    let mut slots = [VirtualNumber::new(0); SLOTS];
    for s in 0..SLOTS {
        slots[s] = VirtualNumber::new(LittleEndian::read_u64(&bytes[SLOT_SIZE * s..]));
    }
    slots
}
