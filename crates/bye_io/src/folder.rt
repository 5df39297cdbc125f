ghost use Rattle.std.specs.Prelude.{◌≡◌, ◌≤◌, List, ℕ, Option, OnOk, OnErr, ◌⊎◌};
ghost use Rattle.std.specs.Io.KnownBytes.{IsAtEnd};
ghost use Rattle.bye_io.specs.Counts.{Rose};
ghost use Rattle.bye_io.specs.Files.{Lacks, Opens};

use crate::fault::Failed;
use crate::source::Source;
use bye_terms::Text;

/// Files under names, of which one at a time is open and read as a source.
pub trait Folder: Source {
    /// The bytes under each name, where the folder tells them.
    ghost files: { Self → Option (List ℕ → Option (List ℕ)) };

    /// Opens the file of that name: its bytes are the ones that are left. After `Failed` none is open.
    fn open_file(&mut self, name: &Text) -> Result<(), Failed>
        // It opens only a file that is there, where the files are told.
        ensures opened { OnOk result (Opens (files self.old) name.now (Self.left self.new)) }
        ensures closed { OnErr result (IsAtEnd (Self.left self.new)) }
        ensures cause { OnErr result
            (Rose (Self.faults self.old) (Self.faults self.new) ⊎ Lacks (files self.old) name.now) }

        ensures files { files self.new ≡ files self.old }
        ensures later { Self.faults self.old ≤ Self.faults self.new }
        ensures doors { Self.doors self.new ≡ Self.doors self.old };

    /// What the folder tells beside the bytes that are left holds its files.
    ghost files_aside: { (x y : Self) → Self.aside x ≡ Self.aside y → files x ≡ files y };
}
