//! What it is to differ first at a place, so that it can't be read more weakly. Each is the contract
//! of a function without parameters that does nothing.

ghost use Rattle.std.specs.Prelude.{◌≡◌, ◌<◌, ◌∷◌, ℕ, List, [], take, slice_get, Some};
ghost use Rattle.game_trait.specs.declared.command.Item.{Item};
ghost use Rattle.game_trait.specs.declared.command.Item.TheVariants.{Beat};
ghost use Rattle.divergence_check.specs.Divergence.{DiffersFirstAt};

/// Items differ first where an item is due that doesn't stand there, and those before it are as
/// they are due. Where they are as they are due they differ at no place, and a tick that lacks its
/// beat differs at its end and not behind it.
pub fn items_differ_where_another_is_due()
    ensures there { (items due : List Item) (n : ℕ) → DiffersFirstAt items due n
        → (take n items ≡ take n due)
        × ((item : Item) × (slice_get due n ≡ Some item) × (slice_get items n ≡ Some item → ⊥)) }
    ensures same { (items : List Item) (n : ℕ) → DiffersFirstAt items items n → ⊥ }
    ensures lacking { DiffersFirstAt [] (Beat ∷ []) 0 }
    ensures behind { DiffersFirstAt [] (Beat ∷ []) 1 → ⊥ }
{}
