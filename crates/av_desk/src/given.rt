ghost use Rattle.std.specs.Prelude.{◌≡◌};

use av_base::{Lease, Version};
use av_service::{ContentScan, Work};
use std::snapshot::Snapshot;

/// What an audit keeps of a work that was given out, but for its bytes, which are those of the message that came. Clauses see the
/// whole work.
#[derive(Drop)]
pub struct GivenWork {
    lease: Lease,
    version: Version,
    scan: ContentScan,
    pub(crate) work: Snapshot<Work>,
    ghost same_lease: { lease ≡ work.value.lease },
    ghost same_version: { version ≡ work.value.version },
    ghost same_scan: { scan ≡ work.value.scan },
}

impl GivenWork {
    ghost use Rattle.std.specs.Option.{option_to_list};
    ghost use Rattle.av_desk.specs.Entry.{works_given};

    /// What is kept of a work, or of none.
    pub fn of(work: &Option<Work>) -> Option<GivenWork>
        ensures { works_given result ≡ option_to_list work.now }
    {
        match work {
            Some(work) => Some(GivenWork {
                lease: work.lease(),
                version: work.version(),
                scan: work.scan(),
                work: Snapshot::of(work),
            }),
            None => None,
        }
    }

    /// Its lease.
    pub fn lease(&self) -> Lease
        ensures { result ≡ self.now.work.value.lease }
    {
        self.lease
    }

    /// The version of the set that it wanted.
    pub fn version(&self) -> Version
        ensures { result ≡ self.now.work.value.version }
    {
        self.version
    }

    /// Its scan so far.
    pub fn scan(&self) -> ContentScan
        ensures { result ≡ self.now.work.value.scan }
    {
        self.scan
    }
}
