// The calls of a service that may be refused for memory. One that is refused must have changed nothing and hand back what
// it took, and is made again with memory.
ghost use Rattle.std.specs.Prelude.{◌<◌};

use crate::done::Done;
use crate::fault::ConnectFault;
use crate::out::ServiceOut;
use crate::service::Service;
use crate::tests::say::readers;
use av_base::{Lease, Limits, Port, Refusal, Verdict, Version};
use av_frame::Message;
use av_sigset::Catalogue;
use std::alloc::{AllocError, AllocFailed, Global};
use std::test::Fail;

// The marks of `tests/fail_nth.c` at the root: requests for memory count from one of this size on, and no more from one of
// the next size on. Where nothing refuses memory they do nothing.
const COUNT: usize = 7_654_321;

const COUNT_NO_MORE: usize = 7_654_322;

fn mark(alloc: Global, size: usize) {
    let room: Result<Vec<u8>, AllocError> = Vec::with_capacity(alloc, size);
    drop(room);
}

pub fn start(
    alloc: Global,
    port: Port,
    catalogue: &Catalogue,
    limits: Limits,
) -> Result<Service, AllocError> {
    mark(alloc, COUNT);
    let first = Service::start(alloc, 1, port, catalogue, limits);
    mark(alloc, COUNT_NO_MORE);
    match first {
        Ok(service) => Ok(service),
        Err(_) => Service::start(alloc, 1, port, catalogue, limits),
    }
}

pub fn connect(
    alloc: Global,
    service: &mut Service,
) -> Result<Result<ServiceOut, ConnectFault>, Fail> {
    let before = readers(alloc, service)?;
    mark(alloc, COUNT);
    let first = service.connect(alloc);
    mark(alloc, COUNT_NO_MORE);
    match first {
        Ok(out) => Ok(Ok(out)),
        Err(Refusal::Fault(fault)) => {
            still(alloc, service, &before)?;
            Ok(Err(fault))
        }
        Err(Refusal::NoMemory) => {
            still(alloc, service, &before)?;
            match service.connect(alloc) {
                Ok(out) => Ok(Ok(out)),
                Err(_) => Err(Fail::new("refused with memory")),
            }
        }
    }
}

pub fn message(
    alloc: Global,
    service: &mut Service,
    message: &Message,
) -> Result<ServiceOut, Fail> {
    let before = readers(alloc, service)?;
    mark(alloc, COUNT);
    let first = service.message(alloc, message);
    mark(alloc, COUNT_NO_MORE);
    match first {
        Ok(out) => Ok(out),
        Err(_) => {
            still(alloc, service, &before)?;
            Ok(service.message(alloc, message)?)
        }
    }
}

pub fn room(alloc: Global, service: &mut Service, version: Version) -> Result<(), Fail> {
    let before = readers(alloc, service)?;
    mark(alloc, COUNT);
    let first = service.room(version);
    mark(alloc, COUNT_NO_MORE);
    if first.is_err() {
        still(alloc, service, &before)?;
        service.room(version)?;
    }
    still(alloc, service, &before)
}

// Whether room was made for what a publication sends.
#[derive(Clone, Copy)]
pub enum Reserve {
    Made,
    NotMade,
}

// Where room was made it takes no memory, and no request of it can be refused.
pub fn publish(
    alloc: Global,
    service: &mut Service,
    version: Version,
    room: Reserve,
) -> Result<ServiceOut, Fail>
    requires { service.old.desk.version < version }
{
    let before = readers(alloc, service)?;
    mark(alloc, COUNT);
    let first = service.publish(alloc, version);
    mark(alloc, COUNT_NO_MORE);
    match (first, room) {
        (Ok(out), _) => Ok(out),
        (Err(_), Reserve::Made) => Err(Fail::new("refused although room was made")),
        (Err(_), Reserve::NotMade) => {
            still(alloc, service, &before)?;
            Ok(service.publish(alloc, version)?)
        }
    }
}

pub fn finish(alloc: Global, service: &mut Service, done: Done) -> Result<ServiceOut, Fail> {
    let before = match readers(alloc, service) {
        Ok(before) => before,
        Err(refused) => {
            done.discard();
            return Err(Fail::new(refused));
        }
    };
    let (lease, hit) = (done.lease(), done.hit());
    mark(alloc, COUNT);
    let first = service.finish(alloc, done);
    mark(alloc, COUNT_NO_MORE);
    match first {
        Ok(out) => Ok(out),
        Err(failed) => {
            let AllocFailed { value } = failed;
            finish_again(alloc, service, value, &before, lease, hit)
        }
    }
}

fn finish_again(
    alloc: Global,
    service: &mut Service,
    done: Done,
    before: &String,
    lease: Lease,
    hit: Option<Verdict>,
) -> Result<ServiceOut, Fail> {
    if let Err(fail) = still(alloc, service, before) {
        done.discard();
        return Err(fail);
    }
    if done.lease() != lease || done.hit() != hit {
        done.discard();
        return Err(Fail::new("another work came back"));
    }
    match service.finish(alloc, done) {
        Ok(out) => Ok(out),
        Err(failed) => {
            let AllocFailed { value } = failed;
            value.discard();
            Err(Fail::new("refused with memory"))
        }
    }
}

// The readers answer as before.
fn still(alloc: Global, service: &Service, before: &String) -> Result<(), Fail> {
    if readers(alloc, service)?.as_str() == before.as_str() {
        Ok(())
    } else {
        Err(Fail::new("a refused call changed what a reader answers"))
    }
}
