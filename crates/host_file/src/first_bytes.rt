// The bytes of files when they are opened.
ghost use Rattle.std.specs.Prelude.{ℕ, List, []};

/// The bytes of files when they are opened. No code reads them.
///
/// Each file has a number, which the program picks. A function over `C: FirstBytes` is proved for all contents of its files.
pub trait FirstBytes: Drop {
    /// The bytes of the file with this number.
    ghost bytes: { ℕ → List ℕ };
}

/// The type that `main` names, because it doesn't know what files hold.
///
/// The member `bytes` says that its files are empty, and this isn't so when the program runs. So state a theorem about files for
/// a type parameter `C: FirstBytes`, and not for this type.
#[derive(Drop)]
pub struct Unknown;

impl FirstBytes for Unknown {
    ghost bytes = { λ _. [] };
}
