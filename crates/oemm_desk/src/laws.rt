//! What follows from the definitions of a desk.

ghost use Rattle.std.specs.Prelude.{ℕ, List, Option, Some, None};
ghost use Rattle.checkout_table.specs.Holders.{HoldersSet};
ghost use Rattle.oemm_desk.specs.Desks.{AreHeld, HoldsJust, HoldsNone};
ghost use Rattle.oemm_desk.specs.Images.{Image, IsLater};

/// Each image is later than itself, and what is later than a later one is later.
pub fn later_laws()
    ensures same { (x : Image) → IsLater x x }
    ensures then { (x y z : Image) → IsLater x y → IsLater y z → IsLater x z }
{}

/// A lane that holds nothing and takes a core holds just this core, and each leaf of it is held; and nothing again once
/// it has given the core back.
pub fn holding_laws()
    ensures taken { (old new : List (Option ℕ)) (lane : ℕ) (core : List ℕ) → HoldsNone old lane
        → HoldersSet (Some lane) core old new → HoldsJust new lane core }
    ensures held { (holders : List (Option ℕ)) (lane : ℕ) (core : List ℕ) → HoldsJust holders lane core
        → AreHeld holders core }
    ensures given { (old new : List (Option ℕ)) (lane : ℕ) (core : List ℕ) → HoldsJust old lane core
        → HoldersSet None core old new → HoldsNone new lane }
{}
