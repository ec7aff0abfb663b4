//! What a filter prints.
ghost use Rattle.av_promise.specs.Filtered.{FilteredGrantsAreClean, WrittenGrantsAreClean};

use av_files::contents::Contents;
use av_history::laws::audits;

/// The promise of a line that a filter prints. Of every run of `filter_files`, by what its contract says of its lines: put together
/// with the audits of the services at its ports, in any order in which each message that came had been sent by the other side before,
/// where each work that came back is one that its service lent, and where a version names the same set in both, each line that lets a file through names the version of a published
/// set under which the content is clean that the file's stream had when the line was written. That content is one that was read from
/// these files for the file's name. It holds of a run that ends well, and of each line that a run with a fault has written.
pub fn filtered_grants_are_clean<F: Contents>(files: &F)
    ensures whole { FilteredGrantsAreClean (F.has_content files.now) }
    ensures so_far { WrittenGrantsAreClean (F.has_content files.now) }
{
    let _of_these = files;
    audits();
}
