//! Stores and their image: which faults the chapters find in them, and which the contracts say.

ghost use Rattle.std.specs.Prelude.{ℕ, List};
ghost use Rattle.ifr_opcodes.specs.Forest.{Node};
ghost use Rattle.hii_varstore.specs.Faults.{IsImageFault};
ghost use Rattle.hii_varstore.specs.Layout.{Shape};
ghost use Rattle.hii_varstore.specs.StoreNodes.{IsStoreFault};
ghost use Rattle.browser_rules.specs.Faults.{image_faults, store_faults};
ghost use Rattle.hii_bytes.specs.Faults.{AreFaults};
ghost use Rattle.rules_laws.specs.laws.Stores.{shape_for};

/// The stores among nodes have a fault of a cause at a place by the chapters exactly where they have it by the contracts.
pub fn faults_of_stores_are_the_same()
    ensures { (ns : List Node) → AreFaults (store_faults ns) (IsStoreFault ns) }
{}

/// An image has a fault of a cause at a place by the chapters exactly where it has it by the contracts.
pub fn faults_of_an_image_are_the_same()
    ensures { (shape : Shape) (image : List ℕ) → AreFaults (image_faults (shape_for shape) image) (IsImageFault shape image) }
{}
