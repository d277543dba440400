//! Laws of changes of a core's disk. Nothing runs: each holds for every disk and every change.
ghost use Rattle.std.specs.Prelude.{◌≡◌, ℕ, Bool, IsTrue, List, Option, Result};
ghost use Rattle.disk_trait.specs.declared.disk.Area.TheVariants.{Oplog};
ghost use Rattle.disk_trait.specs.Disk.{IsImage, Keeps};
ghost use Rattle.commit_book.specs.declared.commit.Commit.{Commit};
ghost use Rattle.oplog_form.specs.declared.entry.Entry.{Entry};
ghost use Rattle.oplog_file.specs.Writers.{Place, Stands};
ghost use Rattle.node_set.specs.declared.fault.CoreFault.{CoreFault};
ghost use Rattle.node_set.specs.Contents.{Content};
ghost use Rattle.core_state.specs.Handing.{SameDisk};
ghost use Rattle.core_disk.specs.Areas.{Areas};
ghost use Rattle.core_disk.specs.Standing.{StandsFor};
ghost use Rattle.core_disk.specs.Plans.{Part};
ghost use Rattle.core_disk.specs.Firm.{IsFirmFor, Commits, StandsFirmly};
ghost use Rattle.core_disk.specs.Changing.{MakesChange, IsLeftBetween};

use disk_trait::Disk;

/// A firm disk stands for its content, as it reads and after each crash, and is firm as long as it is only read and its place
/// in the change file stays.
pub fn a_firm_disk_stands<D: Disk>()
    ensures crash { (accepts : List ℕ → List ℕ → Bool) → (id : List ℕ) → (disk : D) → (place : Place)
        → (m : Content) → (areas : Areas) → IsFirmFor accepts id (D.disk disk) place m
        → IsImage (D.disk disk) (D.disk disk).moment areas → StandsFor accepts id areas m }
    ensures reads { (accepts : List ℕ → List ℕ → Bool) → (id : List ℕ) → (disk : D) → (place : Place)
        → (m : Content) → IsTrue (D.disk disk).honest → IsFirmFor accepts id (D.disk disk) place m
        → StandsFor accepts id (D.disk disk).reads m }
    ensures keeps { (accepts : List ℕ → List ℕ → Bool) → (id : List ℕ) → (old new : D)
        → (place : Place) → (m : Content) → IsFirmFor accepts id (D.disk old) place m
        → Keeps (D.disk old) (D.disk new) → IsFirmFor accepts id (D.disk new) place m }
    ensures there { (accepts : List ℕ → List ℕ → Bool) → (id : List ℕ) → (disk : D)
        → (place now : Place) → (m : Content) → IsFirmFor accepts id (D.disk disk) place m
        → Stands place now → IsFirmFor accepts id (D.disk disk) now m }
{}

/// A firm disk stands for its content, as it reads and after each crash, and so does a disk that is as it was.
pub fn a_firm_disk_stands_firmly<D: Disk>()
    ensures firmly { (accepts : List ℕ → List ℕ → Bool) → (id : List ℕ) → (disk : D) → (place : Place)
        → (m : Content) → IsTrue (D.disk disk).honest → IsFirmFor accepts id (D.disk disk) place m
        → StandsFirmly accepts id (D.disk disk) m }
    ensures same { (accepts : List ℕ → List ℕ → Bool) → (id : List ℕ) → (old new : D) → (m : Content)
        → SameDisk (D.disk old) (D.disk new) → StandsFirmly accepts id (D.disk old) m
        → StandsFirmly accepts id (D.disk new) m }
    ensures same_reads { (accepts : List ℕ → List ℕ → Bool) → (id : List ℕ) → (old new : D)
        → (m : Content) → SameDisk (D.disk old) (D.disk new) → StandsFor accepts id (D.disk old).reads m
        → StandsFor accepts id (D.disk new).reads m }
{}

/// A change of a firm disk leaves at each moment the content before it or the one after it, and after Ok a disk that is firm
/// for the one after it; reads before it and after it are no matter. Where it failed, a crash leaves one of the two, and the
/// blocks that were held are where they were, as long as the disk is only read.
pub fn a_change_commits<D: Disk>()
    ensures commits { (accepts : List ℕ → List ℕ → Bool) → (id : List ℕ) → (m after : Content)
        → (commit : Commit) → (e : Entry) → (part : Option Part) → (place now : Place) → (old new : D)
        → (answer : Result (Unit {0}) CoreFault) → IsTrue (D.disk old).honest
        → MakesChange accepts id m commit after e part place now (D.disk old) (D.disk new) answer
        → Commits accepts id m e after (D.disk old) (D.disk new) now answer }
    ensures reads_before { (accepts : List ℕ → List ℕ → Bool) → (id : List ℕ) → (m after : Content)
        → (e : Entry) → (place now : Place) → (old mid new : D)
        → (answer : Result (Unit {0}) CoreFault)
        → IsFirmFor accepts id (D.disk old) place m → Keeps (D.disk old) (D.disk mid)
        → Commits accepts id m e after (D.disk mid) (D.disk new) now answer
        → Commits accepts id m e after (D.disk old) (D.disk new) now answer }
    ensures reads_after { (accepts : List ℕ → List ℕ → Bool) → (id : List ℕ) → (m after : Content)
        → (e : Entry) → (now : Place) → (old mid new : D)
        → (answer : Result (Unit {0}) CoreFault)
        → Commits accepts id m e after (D.disk old) (D.disk mid) now answer
        → Keeps (D.disk mid) (D.disk new)
        → Commits accepts id m e after (D.disk old) (D.disk new) now answer }
    ensures between { (accepts : List ℕ → List ℕ → Bool) → (id : List ℕ) → (m after : Content)
        → (commit : Commit) → (e : Entry) → (part : Option Part) → (place now : Place) → (old new : D)
        → (answer : Result (Unit {0}) CoreFault) → IsTrue (D.disk old).honest
        → MakesChange accepts id m commit after e part place now (D.disk old) (D.disk new) answer
        → IsLeftBetween accepts id ((D.disk old).reads Oplog) m e after (D.disk new) }
    ensures keeps { (accepts : List ℕ → List ℕ → Bool) → (id oplog : List ℕ) → (m after : Content)
        → (e : Entry) → (old new : D) → IsLeftBetween accepts id oplog m e after (D.disk old)
        → Keeps (D.disk old) (D.disk new) → IsLeftBetween accepts id oplog m e after (D.disk new) }
{}
