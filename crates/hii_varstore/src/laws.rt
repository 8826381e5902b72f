//! Laws of the definitions that the contracts cite.

ghost use Rattle.std.specs.Prelude.{◌≡◌, ◌⊎◌, ◌+◌, ◌≤◌, ◌<◌, ◌++◌, ℕ, List, Some, length, option_map, if◌then◌else◌, ◌==◌};
ghost use Rattle.hii_bytes.specs.Faults.{HasNone};
ghost use Rattle.hii_varstore.specs.Layout.{Shape, size_of};
ghost use Rattle.hii_varstore.specs.code.Ranges.{HasRange};
ghost use Rattle.hii_varstore.specs.Stores.{StoreMap, shape_of, bytes_of, bytes_of_field, overwritten, with_bytes, byte_of};
ghost use Rattle.hii_varstore.specs.Image.{image_of, older_image_of, SpellsImage};
ghost use Rattle.hii_varstore.specs.Faults.{IsImageFault};

/// An image spells one map of stores at most.
pub fn one_map_is_spelled()
    ensures { (shape : Shape) (image : List ℕ) (m n : StoreMap) → SpellsImage shape image m
        → SpellsImage shape image n → m ≡ n }
{}

/// The image of some stores spells them, in either form.
pub fn images_are_read_back()
    ensures written { (m : StoreMap) → SpellsImage (shape_of m) (image_of m) m }
    ensures older { (m : StoreMap) → SpellsImage (shape_of m) (older_image_of m) m }
{}

/// An image that spells stores has no fault.
pub fn spelled_images_have_no_fault()
    ensures { (shape : Shape) (image : List ℕ) (m : StoreMap) → SpellsImage shape image m
        → HasNone (IsImageFault shape image) }
{}

/// An image that has no fault spells stores.
pub fn images_without_fault_are_spelled()
    ensures { (shape : Shape) (image : List ℕ) → HasNone (IsImageFault shape image) → (m : StoreMap)
        × SpellsImage shape image m }
{}

/// The stores that an image in the older form spells are written in the form with the GUID, as the image of the same stores.
pub fn an_older_image_is_written_anew()
    ensures { (m read : StoreMap) → SpellsImage (shape_of m) (older_image_of m) read
        → image_of read ≡ image_of m }
{}

/// The size of a store is the number of its bytes.
pub fn sizes_are_those_of_the_bytes()
    ensures { (m : StoreMap) (id : ℕ) → size_of (shape_of m) id
        ≡ option_map length (bytes_of m id) }
{}

/// What each store holds after a write: the new bytes in the store of that id, in any other what it held.
pub fn a_write_changes_one_store()
    ensures { (m : StoreMap) (id offset other : ℕ) (new : List ℕ)
        → bytes_of (with_bytes m id offset new) other
        ≡ option_map (λ bytes. if other == id then overwritten bytes offset new else bytes)
        (bytes_of m other) }
{}

/// A byte of any store that is not in the written range is as it was.
pub fn a_write_leaves_other_bytes()
    ensures { (m : StoreMap) (id offset other at : ℕ) (new : List ℕ)
        → (other ≡ id → (at < offset) ⊎ (offset + length new ≤ at))
        → byte_of (with_bytes m id offset new) other at ≡ byte_of m other at }
{}

/// A range of any store that does not meet the written one is as it was.
pub fn a_write_leaves_other_ranges()
    ensures { (m : StoreMap) (id offset other at width : ℕ) (new : List ℕ)
        → (other ≡ id → (at + width ≤ offset) ⊎ (offset + length new ≤ at))
        → bytes_of_field (with_bytes m id offset new) other at width
        ≡ bytes_of_field m other at width }
{}

/// A written range is read back.
pub fn a_written_range_is_read_back()
    ensures { (m : StoreMap) (id offset : ℕ) (new : List ℕ)
        → HasRange (shape_of m) id offset (length new)
        → bytes_of_field (with_bytes m id offset new) id offset (length new) ≡ Some new }
{}

/// A write leaves which stores there are, and their sizes.
pub fn a_write_keeps_the_shape()
    ensures { (m : StoreMap) (id offset : ℕ) (new : List ℕ)
        → shape_of (with_bytes m id offset new) ≡ shape_of m }
{}

/// Two writes, the second right behind the first, are one.
pub fn two_writes_are_one()
    ensures { (m : StoreMap) (id offset : ℕ) (front rest : List ℕ)
        → with_bytes (with_bytes m id offset front) id (offset + length front) rest
        ≡ with_bytes m id offset (front ++ rest) }
{}
