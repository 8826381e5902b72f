//! Where a field lies, as the code tells it.

// How many numbers each store has in a numbering of the bytes of all stores: an offset, and a width of at most `MOST_WIDE` bytes.
const STORE_NUMBERS: u64 = 131_072;

// How many bytes of a field are numbered: no store has more.
const MOST_WIDE: usize = 65_536;

/// Where the field of a question lies. Fields follow one another by store, offset and width.
#[derive(Clone, Copy, PartialEq, Eq, PartialOrd, Ord)]
pub struct FieldRange {
    /// The id of the store.
    pub store: u16,
    /// The offset of the field in the store, in bytes.
    pub offset: u16,
    /// How many bytes the field has.
    pub width: usize,
}

impl FieldRange {
    ghost use Rattle.std.specs.Prelude.{◌≡◌, ◌+◌, ◌<◌, nat_lt};
    ghost use Rattle.hii_questions.specs.Fields.{meets};
    ghost use Rattle.hii_questions.specs.code.Numbers.{first_of, behind_of};
    ghost use Rattle.hii_questions.specs.code.Ranges.{range_in};

    /// The number of its first byte among the bytes of all stores.
    pub fn first(self) -> u64
        ensures number { result ≡ first_of self }
        // An offset has two bytes.
        ensures small { self.offset < 65536 }
    {
        u64::from(self.store) * STORE_NUMBERS + u64::from(self.offset)
    }

    /// The number behind that of its last byte. What reaches further than a store may is cut off.
    pub fn behind(self) -> u64
        ensures { result ≡ behind_of self }
    {
        self.first() + self.width.min(MOST_WIDE) as u64
    }

    /// Whether two fields have a byte in common.
    pub fn meets(self, other: FieldRange) -> bool
        ensures { result ≡ meets (range_in self) (range_in other) }
    {
        self.store == other.store
            && 0 < self.width
            && 0 < other.width
            && self.begins_within(other)
            && other.begins_within(self)
    }

    // Whether its offset is below the end of another field.
    fn begins_within(self, other: FieldRange) -> bool
        ensures { result ≡ nat_lt self.offset (other.offset + other.width) }
    {
        self.offset < other.offset || usize::from(self.offset - other.offset) < other.width
    }
}
