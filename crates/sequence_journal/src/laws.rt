//! What a file stands for, as the contracts of functions that do nothing.
ghost use Rattle.std.specs.Prelude.{◌≡◌, ℕ, List, take, Result, Err};
ghost use Rattle.road_base.specs.History.{History};
ghost use Rattle.road_io.specs.declared.outside.Which.{Which};
ghost use Rattle.road_io.specs.Disk.{IsDurable};
ghost use Rattle.road_io.specs.Outside.{Outside, LeavesOnly, disk, image_of};
ghost use Rattle.sequence_journal.specs.declared.error.JournalError.{JournalError};
ghost use Rattle.sequence_journal.specs.declared.error.JournalError.TheVariants.{Damaged};
ghost use Rattle.sequence_journal.specs.declared.load.Loaded.{Loaded};
ghost use Rattle.sequence_journal.specs.Standing.{Stands, IsIntact, DamagedAt};
ghost use Rattle.sequence_journal.specs.Layout.{NoBase};
ghost use Rattle.sequence_journal.specs.Basing.{IsBaseImage};
ghost use Rattle.sequence_journal.specs.Loading.{Loads};

use object_codec::laws::one_list;

/// A file stands for one history alone, under one generation.
pub fn one_history()
    ensures { (file : List ℕ) (g k : ℕ) (h i : History) → Stands file g h → Stands file k i → (g ≡ k) × (h ≡ i) }
{
    one_list();
}

/// A file that stands for a history has an open base.
pub fn base_of_history()
    ensures { (file : List ℕ) (g : ℕ) (h : History) → Stands file g h → NoBase file → ⊥ }
{}

/// A file that stands for a history, or has no open base, isn't damaged.
pub fn no_damage()
    ensures { (file : List ℕ) (offset : ℕ) → IsIntact file → DamagedAt file offset → ⊥ }
{
    one_list();
}

/// Where nothing is pending on a file that stands for a history, or that has no open base, what a stop leaves of it
/// while it is loaded is such a file too. Loading such a file doesn't answer Damaged.
pub fn intact_loads()
    ensures stopped { (file : Which) (result : Result Loaded JournalError) (w v : Outside)
        → IsDurable (disk w file) → IsIntact (disk w file).reads → Loads file result w v
        → LeavesOnly w v (λ left. IsIntact (image_of left file)) }
    ensures undamaged { (file place : Which) (offset : ℕ) (w v : Outside)
        → IsIntact (disk w file).reads → Loads file (Err (Damaged place offset)) w v → ⊥ }
{
    no_damage();
}

/// A file is damaged at one place at most.
pub fn one_damage()
    ensures { (file : List ℕ) (offset place : ℕ) → DamagedAt file offset → DamagedAt file place → offset ≡ place }
{
    one_list();
}

/// A front of a file that stands for a history stands for a history or has no open base, and so for one without an open
/// base.
pub fn intact_fronts()
    ensures { (file : List ℕ) (n : ℕ) → IsIntact file → IsIntact (take n file) }
{}

/// What a stop leaves while a base is written over a file that isn't damaged isn't damaged either.
pub fn intact_bases()
    ensures { (was image : List ℕ) (g : ℕ) (h : History)
        → IsIntact was
        → IsBaseImage was g h image
        → IsIntact image }
{}
