ghost use Rattle.std.specs.Prelude.{◌<◌, ◌≤◌, List, ℕ, length, IfOk, IsErr};
ghost use Rattle.rf_io.specs.Causes.{HasCause};
ghost use Rattle.rf_io.specs.Folder.{FolderState, IsMissing, NoneFell, ReadsAt, SameFiles, Stores};

use crate::Failed;

/// Files by name, which are read in pieces.
pub trait Folder {
    /// The files, where the folder tells them, and for each name the number of reads that failed.
    ghost state: { Self → FolderState };

    /// Reads the bytes of a file from the offset `at` on, as many as it likes of those that `buf` has
    /// room for, and gives their number. 0 is the end of the file. A name without a file gives Failed.
    fn read_at(&mut self, name: &str, at: u64, buf: &mut [u8]) -> Result<usize, Failed>
        requires { 0 < length buf.old }
        ensures bound { IfOk result (λ n. n ≤ length buf.new) }
        ensures bytes { IfOk result (λ n. (file : List ℕ) → Stores (state self.old) name.now file → ReadsAt file at n buf.new) }
        ensures missing { IsMissing (state self.old) name.now → IsErr result }
        ensures same { SameFiles (state self.old) (state self.new) }
        ensures later { NoneFell (state self.old) (state self.new) }
        ensures cause { HasCause ((state self.old).faults name.now) ((state self.new).faults name.now) result };
}
