ghost use Rattle.std.specs.Prelude.{◌≡◌, ◌≤◌, IfErr, IfOk};
ghost use Rattle.av_engines.specs.Fresh.{Refuses, MayHappen};
ghost use Rattle.av_engines.specs.FreshEnd.{Freshens, IsPublished};
ghost use Rattle.av_engines.specs.Serving.{patterns_at};
ghost use Rattle.av_sigset.specs.Catalogue.{latest};

use crate::fresh::Fresh;
use crate::outgoing::Outgoing;
use crate::serving::put_plain;
use av_base::Refusal;
use av_match::Automaton;
use av_service::laws::works_are_lent_under_the_present_version;
use av_service::{Service, ServiceOut};
use av_sigset::{Catalogue, CatalogueFault, SignatureSet};
use std::alloc::{AllocError, Global};

/// Publishes the newer set that has come, where one has and may be published, and puts what the filter is told of it.
pub fn refresh<F: Fresh>(
    alloc: Global,
    service: &mut Service,
    catalogue: &mut Catalogue,
    automaton: &mut Automaton,
    outgoing: &mut Outgoing,
    fresh: &mut F,
) -> Result<(), AllocError>
    requires newest { service.old.desk.version ≤ latest catalogue.old.sets }
    requires patterns { automaton.old.patterns ≡ patterns_at catalogue.old.sets service.old.desk.version }
    ensures freshens { Freshens catalogue.old.sets catalogue.new.sets service.old.desk service.new.desk (F.coming fresh.old)
        (F.coming fresh.new) outgoing.old outgoing.new result }
    ensures newest { service.new.desk.version ≤ latest catalogue.new.sets }
    ensures patterns { automaton.new.patterns ≡ patterns_at catalogue.new.sets service.new.desk.version }
{
    works_are_lent_under_the_present_version();
    let Some(set) = fresh.next() else {
        return Ok(());
    };
    let version = set.version();
    match publish(alloc, service, catalogue, automaton, set) {
        Ok(out) => {
            fresh.published(version);
            put_plain(outgoing, out)
        }
        Err(why) => {
            fresh.refused(version, why);
            Ok(())
        }
    }
}

// Publishes a set, from which on the automaton is its. A refusal changes nothing.
fn publish(
    alloc: Global,
    service: &mut Service,
    catalogue: &mut Catalogue,
    automaton: &mut Automaton,
    set: SignatureSet,
) -> Result<ServiceOut, Refusal<CatalogueFault>>
    requires { service.old.desk.version ≤ latest catalogue.old.sets }
    ensures ok { IfOk result (λ out. IsPublished catalogue.old.sets catalogue.new.sets service.old.desk service.new.desk set
        out.messages.items automaton.new.patterns) }
    ensures err { IfErr result (λ why. MayHappen catalogue.old.sets (Refuses set why)) }
    ensures kept { IfErr result (λ why. (service.new.desk ≡ service.old.desk) × (catalogue.new.sets ≡ catalogue.old.sets)
        × (automaton.new ≡ automaton.old)) }
{
    let version = set.version();
    catalogue.room(version)?;
    let newer = Automaton::build(alloc, &set)?;
    let out = service.publish(alloc, version)?;
    if catalogue.publish(set).is_err() {
        unreachable!()
    }
    *automaton = newer;
    Ok(out)
}
