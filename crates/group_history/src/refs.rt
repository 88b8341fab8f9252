//! Where a node is found, and how many stamps, slots and seats there may be.
ghost use Rattle.std.specs.Prelude.{◌≡◌, ◌<◌, ◌+◌, ◌-◌, ◌*◌, min, nat_lt};
ghost use Rattle.group_history.specs.Refs.{stamp_of, slot_of, stamps, max_slots};

/// How many bits of a reference's word hold the stamp. The others hold the slot's number.
pub const STAMP_BITS: u32 = 40;

/// No stamp is this high.
pub const STAMPS: u64 = 1 << STAMP_BITS;

/// As many slots a reference can tell apart: a group has no more.
pub const MAX_SLOTS: u64 = 1 << (64 - STAMP_BITS);

/// A group has no more seats than this.
pub const MAX_SEATS: u64 = 256;

/// A node's name and place in one word: its stamp above the number of the slot where it lies. A stamp
/// names one node for good; a slot may hold another one later.
#[derive(Clone, Copy, Debug, PartialEq, Eq)]
pub struct Ref {
    bits: u64,
}

impl Ref {
    /// The reference of a stamp below `STAMPS` and a slot's number below `MAX_SLOTS`.
    pub fn new(stamp: u64, slot: u32) -> Ref
        requires stamp { stamp < stamps }
        requires slot { slot < max_slots }
        ensures bits { result.bits ≡ stamp * max_slots + slot }
        ensures stamp { stamp_of result ≡ stamp }
        ensures slot { slot_of result ≡ slot }
    {
        Ref {
            bits: stamp * MAX_SLOTS + slot as u64,
        }
    }

    /// The first reference of a stamp, or of the last stamp where none is so high.
    pub(crate) fn first_of(stamp: u64) -> Ref
        ensures stamp { stamp_of result ≡ min stamp (stamps - 1) }
        ensures slot { slot_of result ≡ 0 }
    {
        Ref::new(stamp.min(STAMPS - 1), 0)
    }

    /// Whether it comes before another one: by stamps, and then by slots.
    pub(crate) fn is_before(self, other: Ref) -> bool
        ensures { result ≡ nat_lt self.bits other.bits }
    {
        self.bits < other.bits
    }

    /// The reference that a word holds; every word holds one.
    pub fn from_bits(bits: u64) -> Ref
        ensures { result.bits ≡ bits }
    {
        Ref { bits }
    }

    /// The whole word: the stamp in the upper 40 bits, the slot's number in the lower 24.
    pub fn bits(self) -> u64
        ensures { result ≡ self.bits }
    {
        self.bits
    }

    /// The stamp, below `STAMPS`.
    pub fn stamp(self) -> u64
        ensures stamp { result ≡ stamp_of self }
        ensures bound { result < stamps }
    {
        self.bits / MAX_SLOTS
    }

    /// The slot's number, below `MAX_SLOTS`.
    pub fn slot(self) -> u32
        ensures slot { result ≡ slot_of self }
        ensures bound { result < max_slots }
    {
        (self.bits % MAX_SLOTS) as u32
    }
}
