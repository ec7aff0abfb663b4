ghost use Rattle.std.specs.Prelude.{◌≡◌, ℕ, List, IfSome, take};
ghost use Rattle.std.specs.Option.{option_copied};
ghost use Rattle.av_files.specs.Contents.{counted};

/// As many files are a group as have so many bytes together: with the last of them, of at most 1 MiB, no more than 8 MiB.
pub const GROUP_BYTES: usize = 7 * 1_048_576;

// A file counts as so many bytes at least.
const LEAST_BYTES: usize = 4_096;

/// Where the contents of files come from.
pub trait Contents {
    // These bytes were read as the content of the file of this name. Code over any `Contents` learns this from `read` alone.
    ghost has_content: { Self → List ℕ → List ℕ → Type 0 };

    /// Reads a file into a buffer, as far as one byte past the limit: how many bytes came, where it can be read.
    fn read(&self, name: &str, buffer: &mut [u8]) -> Option<usize>
        ensures { IfSome result (λ count. has_content self.now name.now (take count buffer.new)) };
}

/// The content of a file, where it can be read: it is put into the buffer.
pub fn content_of<'a, F: Contents>(files: &F, name: &str, buffer: &'a mut [u8]) -> Option<&'a [u8]>
    ensures { IfSome result (λ content. F.has_content files.now name.now content.now) }
{
    let count = files.read(name, buffer)?;
    buffer.get(..count)
}

/// As how many bytes a file of this content counts in its group, also one that can't be read.
pub fn counted_bytes(content: Option<&[u8]>) -> usize
    ensures { result ≡ counted (option_copied content.entry) }
{
    match content {
        None => LEAST_BYTES,
        Some(content) => content.len().max(LEAST_BYTES),
    }
}
