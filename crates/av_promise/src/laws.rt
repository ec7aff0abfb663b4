ghost use Rattle.av_promise.specs.Promise.{GrantsAreClean};

use av_guard::laws::guards_have_history;
use av_history::laws::audits;

/// The promise of a grant. Of every list of calls of a guard that was just made, each as its contract says, there is a history of
/// its filter. Put together with the audits of the services at its two ports, in any order in which each message that came had
/// been sent by the other side before, where each work that came back is one that its service lent, and where a version names the
/// same set in both: each answer that the calls told is to an ask that was taken, by its client and tag; where it is a grant, the
/// content of that ask is clean under the patterns that were published as the version that it names; and in fail-closed mode
/// nothing is let through in another way.
pub fn grants_are_clean()
    ensures { GrantsAreClean }
{
    guards_have_history();
    audits();
}
