ghost use Rattle.std.specs.Prelude.{◌↔◌, IfOk, IsSome, IsTrue};

use crate::host::Crew;
use crate::signatures::Signatures;
use av_base::Port;
use av_desk::Desk;
use std::alloc::{AllocError, Global};
use std::sync::Wait;

/// The desks of the services, each of which has greeted the filter: one, and one more where there is a spare.
#[derive(Drop)]
pub struct Desks {
    pub first: Desk,
    pub spare: Option<Desk>,
}

impl Desks {
    /// Desks with this set.
    pub fn connected<R: Wait>(
        rt: &R,
        alloc: Global,
        signatures: &Signatures,
        crew: Crew,
    ) -> Result<Desks, AllocError>
        ensures { IfOk result (λ desks. IsSome desks.spare ↔ IsTrue crew.has_spare) }
    {
        let first = signatures.desk(rt, alloc, Port::One)?;
        let spare = if crew.has_spare {
            Some(signatures.desk(rt, alloc, Port::Two)?)
        } else {
            None
        };
        Ok(Desks { first, spare })
    }
}
