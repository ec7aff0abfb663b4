//! The end of a host, of those of the loops of its services.

ghost use Rattle.std.specs.Prelude.{◌≡◌, if◌then◌else◌};
ghost use Rattle.av_frame.specs.declared.end.End.TheVariants.{ReadFault};
ghost use Rattle.av_host.specs.Ends.{end_beside, end_of_both, ends_well, gravest_of, is_lost};
ghost use Rattle.av_status.specs.Status.{graver};

use av_engines::End;
use av_status::gravest;

/// The ends of the two loops round a port of the gate.
#[derive(Clone, Copy)]
pub struct PortEnds {
    pub into: End,
    pub out: End,
}

impl PortEnds {
    /// The end of a service that is the only one, and whose own loops ended so.
    pub fn alone(self, service: End) -> End
        ensures { result ≡ gravest_of self service }
    {
        gravest(gravest(self.into, self.out), service)
    }

    /// The end of a service beside another one, whose own loops ended so.
    pub fn beside(self, service: End) -> End
        ensures { result ≡ end_beside self service }
    {
        if matches!(self.into, End::Memory | End::AuditFull) {
            return self.into;
        }
        self.alone(service)
    }
}

/// The end of two services.
pub fn end_of_both(first: End, spare: End) -> End
    ensures { result ≡ end_of_both first spare }
{
    if is_lost(first) && ends_well(spare) {
        return spare;
    }
    if is_lost(spare) && ends_well(first) {
        return first;
    }
    gravest(first, spare)
}

// Whether a connection failed.
fn is_lost(end: End) -> bool
    ensures { result ≡ is_lost end }
{
    matches!(end, End::ReadFault | End::WriteFault | End::Frame)
}

fn ends_well(end: End) -> bool
    ensures { result ≡ ends_well end }
{
    matches!(end, End::Done | End::Closed)
}

/// The graver of an end and of that of a host which may lack a thread.
pub fn with_lack(end: End, lacks_thread: bool) -> End
    ensures { result ≡ (if lacks_thread then graver end ReadFault else end) }
{
    if lacks_thread {
        gravest(end, End::ReadFault)
    } else {
        end
    }
}
