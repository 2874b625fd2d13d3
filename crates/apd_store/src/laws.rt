//! What may be relied on of images: each law is the contract of a function that does nothing.
ghost use Rattle.std.specs.Prelude.{◌≡◌, ℕ, List};
ghost use Rattle.apd_base.specs.State.{State};
ghost use Rattle.apd_store.specs.Image.{Shows, ShowsOld};

/// An image shows one state at most.
pub fn an_image_shows_one_state()
    ensures { (image : List ℕ) (s t : State) → Shows image s → Shows image t → s ≡ t }
{}

/// It shows a state by one version at most.
pub fn an_image_shows_by_one_version()
    ensures { (image : List ℕ) (s t : State) → Shows image s → ¬ ShowsOld image t }
{}
