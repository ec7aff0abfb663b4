//! How far a folder's files are asked about, and what is said of the folder.

ghost use Rattle.std.specs.Prelude.{◌≡◌, not};
ghost use Rattle.av_paths.specs.Course.{IsCleanIfEachIs, begun, ends, is_clean, is_last, passed};

use av_clamd::{Failing, Spoken};

/// What came of a folder's files so far.
#[derive(Clone, Copy, Debug, PartialEq, Eq)]
pub struct Course {
    /// It goes on past the first infected file.
    pub is_many: bool,
    /// Each file so far was granted.
    pub is_clean: bool,
    /// No further file is asked about.
    pub is_over: bool,
}

impl Course {
    /// No file was asked about.
    pub fn new(is_many: bool) -> Course
        ensures { result ≡ begun is_many }
    {
        Course {
            is_many,
            is_clean: true,
            is_over: false,
        }
    }

    /// A file was asked about. Whether it has a line: it was not granted.
    pub fn pass(&mut self, spoken: &Spoken<'_>) -> bool
        ensures passed { self.new ≡ passed self.old spoken.now }
        ensures line { result ≡ not (is_clean spoken.now) }
    {
        let is_clean = is_clean(spoken);
        self.is_clean = self.is_clean && is_clean;
        self.is_over = self.is_over || ends(self.is_many, spoken);
        !is_clean
    }
}

fn is_clean(spoken: &Spoken<'_>) -> bool
    ensures { result ≡ is_clean spoken.now }
{
    matches!(spoken, Spoken::Clean)
}

// Whether no file behind this one is asked about: it is infected and that is enough, or none could have an answer.
fn ends(is_many: bool, spoken: &Spoken<'_>) -> bool
    ensures { result ≡ ends is_many spoken.now }
{
    match spoken {
        Spoken::Infected | Spoken::Found(_) | Spoken::FoundAt { .. } => !is_many,
        Spoken::Failed(failing) => is_last(*failing),
        Spoken::Clean | Spoken::TooLarge | Spoken::NoVerdict { .. } => false,
    }
}

// Whether no other file could have an answer.
fn is_last(failing: Failing) -> bool
    ensures { result ≡ is_last failing }
{
    matches!(failing, Failing::NoAnswer | Failing::NoMemory)
}

/// A folder is said to be clean only if each of its files was granted.
pub fn a_clean_folder_has_clean_files()
    ensures { IsCleanIfEachIs }
{}
