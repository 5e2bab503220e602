//! Files that are read by their paths.
ghost use Rattle.std.specs.Prelude.{ℕ, List};

use wall_labels::Source;

/// Where files are that are read by their paths. A path may be kept as long as `'p`.
pub trait FileSystem<'p> {
    /// A reader of a file. One that is missing fails at its first read.
    type Reader: Source + Drop;

    /// Of the file at this path, from its beginning.
    ghost is_at: { Self.Reader → List ℕ → Type 0 };

    /// A reader of the file at this path. Nothing is read yet.
    fn reader(&self, path: &'p [u8]) -> Self::Reader
        ensures { is_at result path.now };
}
