//! Laws of files.
ghost use Rattle.std.specs.Prelude.{◌≡◌, ℕ, List, Ok, true};
ghost use Rattle.sh_files.specs.Nodes.{FileMap, opened};
ghost use Rattle.sh_files.specs.Whole.{IsWhole};
ghost use Rattle.sh_files.specs.declared.opening.Opening.{Opening};
ghost use Rattle.sh_files_image.specs.Paths.{begins_at_root};
ghost use Rattle.sh_laws.specs.Rooted.{AreRooted, IsRooted};
ghost use Rattle.sh_kernel.specs.Requests.{Request, after_request, after_requests};
ghost use Rattle.sh_kernel.specs.State.{KernelState};

/// Law: files that an image can hold stay so where one of them is opened from a directory that begins at the
/// root, also where opening makes or empties it.
pub fn opened_files_stay_whole()
    ensures { (files changed : FileMap) (directory path : List ℕ) (how : Opening) (n : ℕ)
        → begins_at_root directory ≡ true → IsWhole files → opened files directory path how
        ≡ Ok (n, changed) → IsWhole changed }
{}

/// Law: files that an image can hold stay so after each request of a process to the kernel, and after lists
/// of requests. Those that open a file have to do so from a directory that begins at the root.
pub fn requests_keep_files_whole()
    ensures one { (s : KernelState) (pid : ℕ) (r : Request) → IsRooted r → IsWhole s.machine.files → IsWhole (after_request s pid r).machine.files }
    ensures list { (s : KernelState) (pid : ℕ) (rs : List Request) → AreRooted rs
        → IsWhole s.machine.files → IsWhole (after_requests s pid rs).machine.files }
{}
