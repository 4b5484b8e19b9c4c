//! Laws of the definitions, the contracts of functions that do nothing.
ghost use Rattle.std.specs.Prelude.{◌≡◌, ◌↔◌, ◌∷◌, ◌++◌, List, []};
ghost use Rattle.road_base.specs.declared.ids.Step.{Step};
ghost use Rattle.restrictions.specs.declared.word_list.Word.{Word};
ghost use Rattle.turn_automata.specs.Watched.{Watched, Must, Stops};

/// A drive has at most one longest watched end.
pub fn one_watched()
    ensures { (W : List Word) (d p q : List Step) → Watched W d p → Watched W d q → p ≡ q }
{}

/// What is watched after one more step depends on what was watched before it alone.
pub fn watched_grows()
    ensures { (W : List Word) (d p r : List Step) (s : Step) → Watched W d p
        → Watched W (d ++ s ∷ []) r ↔ Watched W (p ++ s ∷ []) r }
{}

/// What is watched decides which next steps are stopped, as the whole drive does.
pub fn watched_decides()
    ensures { (W : List Word) (d p : List Step) (s : Step) → Watched W d p → Stops W d s ↔ Stops W p s }
{}

/// A step that isn't stopped is one that must come, behind each end of the drive behind which some step must.
pub fn unstopped_is_demanded()
    ensures { (W : List Word) (p : List Step) (s : Step) → (Stops W p s → ⊥) → (front end : List Step) (x : Step)
        → p ≡ front ++ end → Must W end x → Must W end s }
{}
