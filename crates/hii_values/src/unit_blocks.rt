//! Texts looked at in blocks of units: a wide text is compared at the speed of its bytes.

ghost use Rattle.std.specs.Prelude.{◌≡◌, ◌+◌, ◌*◌, ◌≤◌, length, drop};
ghost use Rattle.hii_values.specs.Items.{items_in};
ghost use Rattle.hii_values.specs.code.UnitBlocks.{are_units};

// How many bytes are looked at at once.
const BLOCK: usize = 64;

// Whether no unit of two bytes is 0. It does not end at the first, so that many are looked at at once.
fn are_units(bytes: &[u8]) -> bool
    ensures { result ≡ are_units bytes.now }
{
    let mut are = true;
    let mut rest = bytes;
    while let [low, high, others @ ..] = rest {
        are &= (*low != 0) | (*high != 0);
        rest = others;
    }
    are
}

// How many bytes at the front of some bytes stand in blocks without a unit of two bytes that is 0.
fn unit_blocks(bytes: &[u8]) -> usize
    ensures within { result ≤ length bytes.now }
    ensures counted { result + length (items_in 2 (drop result bytes.now)) * 2
        ≡ length (items_in 2 bytes.now) * 2 }
{
    let mut end = 0;
    let mut rest = bytes;
    while BLOCK <= rest.len() && are_units(&rest[..BLOCK]) {
        rest = &rest[BLOCK..];
        end += BLOCK;
    }
    end
}

/// The same where the items have `width` bytes each: none are looked at in blocks but units.
pub(crate) fn blocks_of_items(bytes: &[u8], width: usize) -> usize
    ensures within { result ≤ length bytes.now }
    ensures counted { result + length (items_in width (drop result bytes.now)) * width
        ≡ length (items_in width bytes.now) * width }
{
    if width == 2 { unit_blocks(bytes) } else { 0 }
}
