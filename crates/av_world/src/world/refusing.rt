ghost use Rattle.std.specs.Prelude.{◌≡◌, List, Some, None, is_some};
ghost use Rattle.std.specs.Option.{option_map};
ghost use Rattle.av_filter.specs.Asking.{event_called};
ghost use Rattle.av_filter.specs.Conduct.{filter_refusal};
ghost use Rattle.av_sigset.specs.Made.{set_made};
ghost use Rattle.av_world.specs.Request.{frame_fault, outcome_of, work_fault};
ghost use Rattle.av_base.specs.Refused.{IsFaultOf, IsRefusal};
ghost use Rattle.av_world.specs.Serving.{service_refusal};
ghost use Rattle.av_world.specs.Serving as serving;
ghost use Rattle.av_world.specs.Stage.{at_history};
ghost use Rattle.av_history.specs.World.{desk_of, member, published, step_fault, step_of, work_at};
ghost use Rattle.av_history.specs.declared.event.Event.{Event};
ghost use Rattle.av_history.specs.declared.fault.StepFault.TheVariants as fault;

use super::request::Request;
use super::serving::ServiceCall;
use super::stage::Stage;
use av_base::{Port, Refusal, Version};
use av_filter::FilterCall;
use av_frame::Message;
use av_history::event::Event;
use av_history::fault::StepFault;
use av_history::pattern::Patterns;
use av_service::{ConnectFault, Work};
use av_sigset::SignatureSet;
use av_store::StoreFault;

impl Stage {
    // Why an event can't happen, where it can't whatever memory there is.
    fn refusal(&self, event: &Event) -> Option<StepFault>
        ensures { (h : List Event) → IsFaultOf (step_of (at_history h self.now) event.now) result }
    {
        let request = match self.request(event) {
            Ok(request) => request,
            Err(fault) => return Some(fault),
        };
        self.refusal_of(&request)
    }

    /// Why an event did not happen: its fault, or want of memory where it has none.
    pub fn why(&self, event: &Event) -> Refusal<StepFault>
        ensures { (h : List Event) → IsRefusal result (step_of (at_history h self.now) event.now) }
    {
        match self.refusal(event) {
            Some(fault) => Refusal::Fault(fault),
            None => Refusal::NoMemory,
        }
    }

    // Why what an event asks for can't be done.
    #[tactic(auto, using(crate::proofs::RequestLemmas::refused_down, crate::proofs::RequestLemmas::refused_filter, crate::proofs::RequestLemmas::refused_service, crate::proofs::RequestLemmas::refused_up, crate::proofs::RequestLemmas::refused_work))]
    fn refusal_of(&self, request: &Request<'_>) -> Option<StepFault>
        ensures { (h : List Event) (e : Event) → IsFaultOf (outcome_of (at_history h self.now) e request.now) result }
    {
        match *request {
            Request::Publish { version, patterns } => self.publish_refusal(version, patterns),
            Request::Filter { ref call } => self.filter_refusal(call),
            Request::Service { port, ref call } => self.service_refusal(port, call),
            Request::Down { place } => frame_refusal(&self.down, place),
            Request::Up { place } => frame_refusal(&self.up, place),
            Request::Run { place } => work_refusal(&self.works, place),
        }
    }

    // BadSet, then the catalogue's fault.
    #[tactic(auto, using(crate::proofs::RequestLemmas::can_be_published))]
    fn publish_refusal(&self, version: Version, patterns: &Patterns) -> Option<StepFault>
        ensures { (h : List Event) (e : Event)
            → IsFaultOf (published (at_history h self.now) e (set_made version patterns.now)) result }
    {
        if SignatureSet::patterns_fault(version, patterns.as_slice()).is_some() {
            return Some(StepFault::BadSet);
        }
        match self.catalogue.refusal(version) {
            Some(fault) => Some(StepFault::Catalogue(fault)),
            None => None,
        }
    }

    // The fault of the filter or of the volume.
    #[tactic(auto, unfolding(av_filter::specs::Conduct::filter_refusal))]
    fn filter_refusal(&self, call: &FilterCall<'_>) -> Option<StepFault>
        ensures { result ≡ option_map step_fault (filter_refusal self.now.table self.now.volume (event_called call.now)) }
    {
        let volume = self.volume();
        match *call {
            FilterCall::Create { name } => store_fault(volume.create_refusal(name)),
            FilterCall::Write {
                stream,
                offset,
                bytes,
            } => store_fault(volume.write_refusal(stream, offset, bytes)),
            FilterCall::Cut { stream, length } => {
                store_fault(volume.cut_refusal(stream, length))
            }
            FilterCall::Remove { stream } => store_fault(volume.remove_refusal(stream)),
            FilterCall::Open { .. } => {
                if volume.opens_left() == 0 {
                    Some(StepFault::OpensSpent)
                } else {
                    None
                }
            }
            FilterCall::Restart => {
                if volume.boot() == u64::MAX {
                    Some(StepFault::BootSpent)
                } else {
                    None
                }
            }
            _ => None,
        }
    }

    // The fault of the service of a port.
    fn service_refusal(&self, port: Port, call: &ServiceCall<'_>) -> Option<StepFault>
        ensures { result
            ≡ option_map fault.Connect (service_refusal (desk_of self.now port) (serving.event_called self.now.sets call.now)) }
    {
        let ServiceCall::Connect = *call else {
            return None;
        };
        let service = self.service(port);
        if service.version().is_none() {
            return Some(StepFault::Connect(ConnectFault::NoSignatures));
        }
        if service.connected() {
            return Some(StepFault::Connect(ConnectFault::AlreadyConnected));
        }
        None
    }
}

// The volume's fault, as that of a step.
fn store_fault(refusal: Option<StoreFault>) -> Option<StepFault>
    ensures { result ≡ option_map fault.Store refusal }
{
    match refusal {
        Some(fault) => Some(StepFault::Store(fault)),
        None => None,
    }
}

// NoSuchFrame, where no message stands at the place.
fn frame_refusal(frames: &Vec<Message>, place: u64) -> Option<StepFault>
    ensures { result ≡ frame_fault (member frames.now.items place) }
{
    if place == 0 || place > frames.len() as u64 {
        Some(StepFault::NoSuchFrame)
    } else {
        None
    }
}

// NoSuchWork, where no work stands at the place, or it came back.
fn work_refusal(works: &Vec<Option<(Port, Work)>>, place: u64) -> Option<StepFault>
    ensures { result ≡ work_fault (work_at works.now.items place) }
{
    if place == 0 {
        return Some(StepFault::NoSuchWork);
    }
    match works.get((place - 1) as usize) {
        Some(Some(_)) => None,
        _ => Some(StepFault::NoSuchWork),
    }
}
