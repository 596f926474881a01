// Listing a directory.
ghost use Rattle.sh_base.specs.Memory.{no_memory};
ghost use Rattle.std.specs.Prelude.{◌≡◌, ◌≢◌, IfOk, IfErr, List, ℕ, Ok, Err, map};
ghost use Rattle.std.specs.Borrow.{Bor};
ghost use Rattle.sh_files.specs.Nodes.{directory_names};

use crate::fault::FileFault;
use crate::files::Files;

impl Files {
    /// The names in the directory that a path names, sorted by byte, without dot and dot-dot. The path is
    /// followed as by [`Files::open`]. It takes a look-up for the first name, then goes from each to its
    /// neighbour, and never goes over the files that lie elsewhere.
    ///
    /// `NoEntry` and `NotDirectory` are as for [`Files::open`]; `NoEntry` where nothing is there, `NotDirectory` where
    /// it is no directory. `NoMemory` may come at any point.
    pub fn list(&self, directory: &[u8], path: &[u8]) -> Result<Vec<&[u8]>, FileFault>
        ensures ok { IfOk result (λ names.
            directory_names self.now directory.now path.now
            ≡ Ok (map (λ (name : Bor (List ℕ)). name.now) names.items)) }
        ensures refused { IfErr result (λ fault.
            fault ≢ FileFault.NoMemory no_memory
            → directory_names self.now directory.now path.now ≡ Err fault) }
    {
        let place = self.resolve(directory, path)?;
        self.check_directory(&place)?;
        let names = self.names_at(&place)?;
        Ok(names)
    }
}
