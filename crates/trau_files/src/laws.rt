//! Laws of honest folders. Each is the contract of a function that does nothing.

ghost use Rattle.std.specs.Prelude.{ℕ, List};
ghost use Rattle.trau_io.specs.declared.line.Side.{Side};
ghost use Rattle.trau_files.specs.Disk.{Disk};
ghost use Rattle.trau_files.specs.Honest.{IsHonest};
ghost use Rattle.trau_files.specs.Holds.{AreEmptyOrAsBefore, GaveTheirFiles, HaveWhatTheyTook, Holds, OthersHaveTheirs};
ghost use Rattle.trau_files.specs.OnPaper.{on_paper};
ghost use Rattle.trau_files.specs.Trunk.{TrunkFiles};

use crate::folder::Folder;

/// There is an honest folder: on paper, one that does what `IsHonest` asks, and nothing else.
pub fn a_folder_is_honest()
    ensures { IsHonest on_paper }
{}

/// After any reads and writes of a trunk over an honest folder: what a line that was only read gave is how its file
/// began at the start, a line's file that was written has the octets that the line took and no others (one that was
/// opened to write it, but took nothing, is empty), and each file that no line has for writing has the octets that it
/// had at the start.
pub fn files_hold<D: Folder>()
    ensures given { (honest : IsHonest D.does) (start : Disk) (given put : ℕ → Side → List ℕ) (t : TrunkFiles D D.File) → Holds honest start given put t →
        GaveTheirFiles start t.files.claims given }
    ensures taken { (honest : IsHonest D.does) (start : Disk) (given put : ℕ → Side → List ℕ) (t : TrunkFiles D D.File) → Holds honest start given put t →
        HaveWhatTheyTook (honest.disk t.files.folder) put }
    ensures empty { (honest : IsHonest D.does) (start : Disk) (given put : ℕ → Side → List ℕ) (t : TrunkFiles D D.File) → Holds honest start given put t →
        AreEmptyOrAsBefore start (honest.disk t.files.folder) t.files.claims put }
    ensures others { (honest : IsHonest D.does) (start : Disk) (given put : ℕ → Side → List ℕ) (t : TrunkFiles D D.File) → Holds honest start given put t →
        OthersHaveTheirs start (honest.disk t.files.folder) t.files.claims }
{}
