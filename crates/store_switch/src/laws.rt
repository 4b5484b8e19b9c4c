//! What two files stand for, and what a stop leaves of them, as the contracts of functions that do nothing.
ghost use Rattle.std.specs.Prelude.{◌≡◌, ◌⊎◌, ℕ, ◌≤◌, ◌^◌, List, length, Result, Ok, Err};
ghost use Rattle.std.specs.FinMap.{empty};
ghost use Rattle.road_base.specs.declared.event.Event.{Event};
ghost use Rattle.road_base.specs.declared.ids.Sequence.{Sequence};
ghost use Rattle.road_base.specs.Objects.{Objects};
ghost use Rattle.road_base.specs.Applying.{IsApplied};
ghost use Rattle.road_base.specs.History.{History, HasObjects, SameForReader, with_change};
ghost use Rattle.road_io.specs.declared.outside.Which.{Which};
ghost use Rattle.road_io.specs.Outside.{Outside, Left, IsLeft, LeavesOnly, present, image_of};
ghost use Rattle.sequence_journal.specs.declared.error.JournalError.{JournalError};
ghost use Rattle.sequence_journal.specs.declared.error.JournalError.TheVariants.{Damaged};
ghost use Rattle.sequence_journal.specs.declared.journal.Journal.{Journal};
ghost use Rattle.sequence_journal.specs.declared.load.Loaded.{Loaded};
ghost use Rattle.sequence_journal.specs.Standing.{DamagedAt};
ghost use Rattle.sequence_journal.specs.Adding.{Adds, AddAnswer};
ghost use Rattle.store_switch.specs.LiveFile.{IsLive, NoBases, BothDurable, reads_of};
ghost use Rattle.store_switch.specs.TwoFiles.{StandOn, StandFor, CanBeLoaded, AreIntact};
ghost use Rattle.store_switch.specs.TwoFiles.{IsOnStore, LeavesStore, LeavesEither};
ghost use Rattle.store_switch.specs.StoreLoading.{LoadsStore};
ghost use Rattle.store_switch.specs.StoreCreating.{CreatesStore};
ghost use Rattle.store_switch.specs.Checkpointing.{AreEntries, checkpoint_of, Checkpoints, CheckpointAnswer};
ghost use Rattle.store_switch.specs.Checkpointing.{IsRaised, LeavesCheckpoint, LeavesAsRead, LeavesRaised};

use road_base::laws::{history_objects, key_order};
use sequence_journal::laws::{no_damage, one_history};

// ---- two files

/// One file at most is live, and files that stand for a history have a live one.
pub fn one_live()
    ensures once { (files : Which → List ℕ) (f k : Which) → IsLive f files → IsLive k files → f ≡ k }
    ensures stands { (files : Which → List ℕ) (f : Which) (g : ℕ) (h : History) → StandOn f g files h → IsLive f files }
{}

/// Two files stand for one history alone, which one file holds, under one generation.
pub fn one_store()
    ensures { (files : Which → List ℕ) (f k : Which) (g n : ℕ) (h i : History)
        → StandOn f g files h → StandOn k n files i → (f ≡ k) × (g ≡ n) × (h ≡ i) }
{
    one_history();
}

/// The live one of files that stand for a history isn't damaged, so neither `load_store` nor `Journal::load` of it
/// answers Damaged.
pub fn no_damage_in_store()
    ensures live { (files : Which → List ℕ) (live : Which) (offset : ℕ)
        → AreIntact files → IsLive live files → DamagedAt (files live) offset → ⊥ }
    ensures loading { (w v : Outside) (file : Which) (offset : ℕ)
        → AreIntact (reads_of w) → LoadsStore (Err (Damaged file offset)) w v → ⊥ }
{
    no_damage();
}

// ---- what a stop leaves of them

/// Where nothing is pending, a stop between two calls leaves both files as they read.
pub fn still_there()
    ensures files { (w : Outside) (left : Left) (file : Which)
        → BothDurable w → IsLeft (present w) left → image_of left file ≡ reads_of w file }
    ensures store { (w : Outside) (left : Left) (h : History)
        → BothDurable w → IsLeft (present w) left → StandFor (reads_of w) h → StandFor (image_of left) h }
{}

/// Loading files that stand for a history, a stop leaves what it could leave when the call began, or files that stand
/// for that history. Of other files, and of those past the limit, it leaves nothing else than it could. Where nothing
/// is pending on files that stand for a history, or that have no open base, a stop leaves such files.
pub fn stopped_load()
    ensures history { (result : Result Loaded JournalError) (w v : Outside) (h : History)
        → StandFor (reads_of w) h → LoadsStore result w v
        → LeavesOnly w v (λ left. IsLeft (present w) left ⊎ LeavesStore h w.output left) }
    ensures nothing { (result : Result Loaded JournalError) (w v : Outside)
        → ((h : History) → CanBeLoaded (reads_of w) h → ⊥) → LoadsStore result w v
        → LeavesOnly w v (IsLeft (present w)) }
    ensures intact { (result : Result Loaded JournalError) (w v : Outside)
        → BothDurable w → AreIntact (reads_of w) → LoadsStore result w v
        → LeavesOnly w v (λ left. AreIntact (image_of left)) }
{
    one_history();
}

/// Creating a store where some file has an open base, a stop leaves nothing else than it could leave when the call
/// began. Where nothing is pending on files that stand for a history, or that have no open base, a stop leaves such
/// files.
pub fn stopped_creation()
    ensures nothing { (number : ℕ) (events : List Event) (result : Result Journal JournalError) (w v : Outside)
        → (NoBases (reads_of w) → ⊥) → CreatesStore number events result w v → LeavesOnly w v (IsLeft (present w)) }
    ensures intact { (number : ℕ) (events : List Event) (result : Result Journal JournalError) (w v : Outside)
        → BothDurable w → AreIntact (reads_of w) → CreatesStore number events result w v
        → LeavesOnly w v (λ left. AreIntact (image_of left)) }
{}

// ---- a journal on a store

/// Files on which a journal stands for a history stand for it, and a stop leaves such files. It stands on them as long
/// as they read so and nothing is pending on either: a put changes neither, nor does a call that asks the site.
pub fn journal_on_store()
    ensures stand { (j : Journal) (h : History) (w : Outside)
        → IsOnStore j h w → StandOn j.file j.generation (reads_of w) h }
    ensures stopped { (j : Journal) (h : History) (w : Outside) (left : Left)
        → IsOnStore j h w → IsLeft (present w) left → LeavesStore h w.output left }
    ensures stays { (j : Journal) (h : History) (w v : Outside)
        → IsOnStore j h w → ((file : Which) → reads_of v file ≡ reads_of w file) → BothDurable v → IsOnStore j h v }
{}

/// Adding a change to a journal that stands on a store, a stop leaves the store with the change or without it. After
/// an Ok the journal stands on the store with the change, and its file has at most 2^40 bytes.
pub fn change_on_store()
    ensures stopped { (old new : Journal) (h : History) (change : List Event) (result : Result (Unit {0}) JournalError)
        (w v : Outside) → IsOnStore old h w → Adds old new change result w v
        → LeavesOnly w v (LeavesEither h change w.output) }
    ensures ok { (old new : Journal) (h : History) (seq : Sequence) (change : List Event) (x : Unit {0})
        (w v : Outside) (before now : ℕ) → IsOnStore old h w → AddAnswer old new seq change (Ok x) before now
        → Adds old new change (Ok x) w v → IsOnStore new (with_change h change) v }
    ensures small { (old new : Journal) (h : History) (seq : Sequence) (change : List Event) (x : Unit {0})
        (w v : Outside) (before now : ℕ) → IsOnStore old h w → AddAnswer old new seq change (Ok x) before now
        → Adds old new change (Ok x) w v → length (reads_of v new.file) ≤ 2 ^ 40 }
{}

/// Going on in the other file of a store on which a journal stands, a stop leaves the store or its checkpoint under the
/// given profile, and so files that aren't damaged. After an Ok the journal stands on the checkpoint, and its file has
/// at most 2^40 bytes.
pub fn checkpoint_on_store()
    ensures stopped { (old new : Journal) (profile : ℕ) (h : History) (events : List Event)
        (result : Result (Unit {0}) JournalError) (w v : Outside) → IsOnStore old h w
        → Checkpoints old new profile events result w v
        → LeavesOnly w v (LeavesCheckpoint profile h events w.output) }
    ensures intact { (old new : Journal) (profile : ℕ) (h : History) (events : List Event)
        (result : Result (Unit {0}) JournalError) (w v : Outside) → IsOnStore old h w
        → Checkpoints old new profile events result w v → LeavesOnly w v (λ left. AreIntact (image_of left)) }
    ensures ok { (old new : Journal) (profile : ℕ) (h : History) (events : List Event) (x : Unit {0}) (w v : Outside)
        → IsOnStore old h w → Checkpoints old new profile events (Ok x) w v
        → IsOnStore new (checkpoint_of profile h events) v }
    ensures small { (old new : Journal) (profile : ℕ) (h : History) (events : List Event) (x : Unit {0})
        (w v : Outside) (before now : ℕ) → IsOnStore old h w → CheckpointAnswer old new profile events (Ok x) before now
        → Checkpoints old new profile events (Ok x) w v → length (reads_of v new.file) ≤ 2 ^ 40 }
{}

/// The entries of an object map, as events, leave that map. So the checkpoint of a history with the entries of its
/// objects is the same for a reader under the history's own profile, and under another one it has the same kept number
/// and objects. Going on there under the journal's own profile, a stop leaves files that are the same for a reader;
/// under another one, files with the same kept number and objects, of the history's profile or of the other one.
pub fn checkpoint_for_reader()
    ensures entries { (objects : Objects) (events : List Event)
        → AreEntries objects events → IsApplied empty events objects }
    ensures same { (h : History) (objects : Objects) (events : List Event)
        → HasObjects h objects → AreEntries objects events → SameForReader (checkpoint_of h.profile h events) h }
    ensures raised { (profile : ℕ) (h : History) (objects : Objects) (events : List Event)
        → HasObjects h objects → AreEntries objects events → IsRaised profile (checkpoint_of profile h events) h }
    ensures stopped { (old new : Journal) (h : History) (objects : Objects) (events : List Event)
        (result : Result (Unit {0}) JournalError) (w v : Outside) → IsOnStore old h w → HasObjects h objects
        → AreEntries objects events → Checkpoints old new old.profile events result w v
        → LeavesOnly w v (LeavesAsRead h w.output) }
    ensures stopped_raise { (old new : Journal) (profile : ℕ) (h : History) (objects : Objects) (events : List Event)
        (result : Result (Unit {0}) JournalError) (w v : Outside) → IsOnStore old h w → HasObjects h objects
        → AreEntries objects events → Checkpoints old new profile events result w v
        → LeavesOnly w v (LeavesRaised profile h w.output) }
{
    key_order();
    history_objects();
}
