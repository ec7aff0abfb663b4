ghost use Rattle.std.specs.Prelude.{◌≡◌, map};
ghost use Rattle.av_desk.specs.Audit.{opened_by, started_by};
ghost use Rattle.av_desk.specs.Book.{sets_end};
ghost use Rattle.av_service.specs.Audit.{IsCatalogue, IsServiceAudit};
ghost use Rattle.av_sigset.specs.Publication.{publication_of};

use crate::audit::Audit;
use av_base::{Limits, Port};

/// What a desk was set up with, but for its catalogue.
#[derive(Clone, Copy, Debug, PartialEq, Eq)]
pub struct Setup {
    pub volume_number: u64,
    pub port: Port,
    pub limits: Limits,
}

impl Setup {
    ghost use Rattle.av_desk.specs.Setup.{recorded_by};

    // An audit of a desk that was set up so. Each audit of this desk is one. But a proof forgets what a lock keeps, so that is
    // looked at: another desk's audit would be given back without an event.
    pub(crate) fn checked(self, audit: Audit) -> Audit
        requires legal { IsServiceAudit (opened_by audit) (started_by audit) audit.events.items }
        requires catalogue { IsCatalogue (opened_by audit) }
        requires sets { map publication_of audit.catalogue.sets ≡ sets_end (opened_by audit) audit.events.items }
        ensures setup { recorded_by result ≡ self }
        ensures legal { IsServiceAudit (opened_by result) (started_by result) result.events.items }
        ensures catalogue { IsCatalogue (opened_by result) }
        ensures sets { map publication_of result.catalogue.sets ≡ sets_end (opened_by result) result.events.items }
    {
        if audit.volume_number == self.volume_number
            && audit.port == self.port
            && audit.limits == self.limits
        {
            return audit;
        }
        self.without_event(audit)
    }

    // The audit over this one's catalogue in which nothing happened.
    fn without_event(self, audit: Audit) -> Audit
        ensures setup { recorded_by result ≡ self }
        ensures legal { IsServiceAudit (opened_by result) (started_by result) result.events.items }
        ensures catalogue { IsCatalogue (opened_by result) }
        ensures sets { map publication_of result.catalogue.sets ≡ sets_end (opened_by result) result.events.items }
    {
        // Read for the prover: the versions of a catalogue rise, and each of its sets is one.
        let _rises = audit.catalogue.latest();
        let opening = audit.catalogue.len();
        let Audit {
            volume_number: _,
            port: _,
            limits: _,
            catalogue,
            opening: _,
            mut events,
        } = audit;
        events.clear();
        Audit {
            volume_number: self.volume_number,
            port: self.port,
            limits: self.limits,
            catalogue,
            opening,
            events,
        }
    }
}
