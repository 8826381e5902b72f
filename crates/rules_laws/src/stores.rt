//! The stores of the chapters are those of the contracts.

ghost use Rattle.std.specs.Prelude.{◌≡◌, ℕ, List, filter, true};
ghost use Rattle.browser_rules.specs.Stores as chapter;
ghost use Rattle.ifr_opcodes.specs.Forest.{Node};
ghost use Rattle.ifr_nodes.specs.Nodes.{is_store};
ghost use Rattle.ifr_scopes.specs.Stores as node;
ghost use Rattle.hii_varstore.specs.Image.{SpellsImage, image_of};
ghost use Rattle.hii_varstore.specs.Layout.{Shape, size_of};
ghost use Rattle.hii_varstore.specs.StoreNodes.{layout_of};
ghost use Rattle.hii_varstore.specs.Stores.{StoreMap, bytes_of, with_bytes};
ghost use Rattle.rules_laws.specs.laws.Stores.{shape_for, stores_for};

/// The stores that a form set declares are those of the chapters, and so is what each says of itself.
pub fn a_store_says_what_the_chapters_say()
    ensures which { (ns : List Node) → chapter.store_nodes ns ≡ filter is_store ns }
    ensures id { (n : Node) → is_store n ≡ true → chapter.store_id n ≡ node.store_id n.op }
    ensures guid { (n : Node) → is_store n ≡ true → chapter.store_guid n ≡ node.store_guid n.op }
    ensures name { (n : Node) → is_store n ≡ true → chapter.store_name n ≡ node.store_name n.op }
    ensures size { (n : Node) → is_store n ≡ true → chapter.store_size n ≡ node.store_size n.op }
{}

/// What an image is read and written by is what the chapters say.
pub fn shapes_are_those_of_the_chapters()
    ensures shape { (ns : List Node) → chapter.shape_of ns ≡ shape_for (layout_of ns) }
    ensures size { (ns : List Node) (id : ℕ) → chapter.size_of ns id ≡ size_of (layout_of ns) id }
{}

/// Stores hold, and a write leaves in them, what the chapters say.
pub fn stores_hold_what_the_chapters_say()
    ensures bytes { (m : StoreMap) (id : ℕ) → chapter.bytes_of (stores_for m) id ≡ bytes_of m id }
    ensures written { (m : StoreMap) (id offset : ℕ) (new : List ℕ) →
        chapter.with_bytes (stores_for m) id offset new ≡ stores_for (with_bytes m id offset new) }
{}

/// The image of stores is that of the chapters, and an image spells the stores that it spells by the chapters.
pub fn an_image_spells_what_the_chapters_say()
    ensures image { (m : StoreMap) → chapter.image_of m.guid (stores_for m) ≡ image_of m }
    ensures spelled { (shape : Shape) (image : List ℕ) (m : StoreMap) → SpellsImage shape image m →
        chapter.SpellsImage (shape_for shape) image (stores_for m) }
    ensures back { (shape : Shape) (image : List ℕ) (stores : chapter.Stores) → chapter.SpellsImage (shape_for shape) image stores →
        (m : StoreMap) × (stores_for m ≡ stores) × SpellsImage shape image m }
{}
