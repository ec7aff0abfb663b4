ghost use Rattle.std.specs.Prelude.{◌≡◌, ◌≢◌, [], OnOk};
ghost use Rattle.av_frame.specs.declared.end.End.TheVariants.{Done, Memory};
ghost use Rattle.av_sockets.specs.Run.{LeadsOn};

use crate::duplex::Duplex;
use crate::fault::{SocketFault, socket_failed};
use crate::mount::serve;
use crate::sockets::{Meeting, meet_service};
use av_base::StreamId;
use av_base::limits::MAX_JOBS;
use av_engines::{End, Exchange};
use av_files::streams::TURNS;
use av_filter::Mounted;
use av_pend::Answer;
use av_status::end_told;
use av_status::status::Status;
use std::alloc::{AllocError, Global};
use std::fs::Files;
use std::io::Write;
use std::net::Net;
use std::time::Clock;

// How many files are opened at one time: as many as a service runs scans.
const OPENS: usize = MAX_JOBS as usize;

// The filter's line to the one service that may join it.
#[derive(Drop)]
pub(crate) struct FilterConnection<'a, R> {
    rt: &'a R,
    alloc: Global,
    meeting: Meeting<'a>,
    mode: u32,
    // Whom it met, once it was waited for a service.
    met: Option<Result<Duplex<'a, R>, SocketFault>>,
    // The frames that come over it.
    exchange: Exchange,
    // How the opens over it ended so far.
    end: End,
    ghost idle: { end ≡ Done → exchange.outgoing ≡ [] },
}

impl<'a, R: Files + Net + Clock> FilterConnection<'a, R> {
    // At this socket, of these rights, which is not made before the service is waited for.
    pub(crate) fn new(
        rt: &'a R,
        alloc: Global,
        meeting: Meeting<'a>,
        mode: u32,
    ) -> Result<FilterConnection<'a, R>, AllocError> {
        Ok(FilterConnection {
            rt,
            alloc,
            meeting,
            mode,
            met: None,
            exchange: Exchange::new(alloc, TURNS)?,
            end: End::Done,
        })
    }

    // Waits for a service, where it was not done before.
    pub(crate) fn meet(&mut self) {
        if self.met.is_none() {
            let met = meet_service(self.rt, self.alloc, self.meeting, self.mode);
            self.met = Some(met);
        }
    }

    // Opens streams over the connection, as far as there is one and it goes on: as many at one time as a service runs scans, and the
    // next ones once they have their answers.
    pub(crate) fn open(
        &mut self,
        mount: &mut Mounted,
        streams: &[StreamId],
        answers: &mut Vec<Answer>,
    ) -> Result<(), AllocError>
        ensures { OnOk result
            (LeadsOn mount.old answers.old.items mount.new answers.new.items) }
    {
        let Some(Ok(duplex)) = &self.met else {
            return Ok(());
        };
        if self.end != End::Done {
            return Ok(());
        }
        self.end = open_streams(
            self.alloc,
            mount,
            streams,
            &mut self.exchange,
            duplex,
            answers,
        );
        if self.end == End::Memory {
            return Err(AllocError);
        }
        Ok(())
    }

    // How the filter's side ended, where that is a fault.
    pub(crate) fn told<E: Write>(&self, err: &mut E) -> Status {
        if let Some(Err(fault)) = &self.met {
            return socket_failed(err, self.meeting.path, *fault);
        }
        match self.end {
            End::Closed | End::ReadFault | End::WriteFault => {
                socket_failed(err, self.meeting.path, SocketFault::ServiceLost)
            }
            end => end_told(err, end),
        }
    }
}

// Opens streams over the connection, so many at one time.
fn open_streams<C: Clock>(
    alloc: Global,
    mount: &mut Mounted,
    streams: &[StreamId],
    exchange: &mut Exchange,
    duplex: &Duplex<'_, C>,
    answers: &mut Vec<Answer>,
) -> End
    requires idle { exchange.old.outgoing ≡ [] }
    ensures led { result ≢ Memory
        → LeadsOn mount.old answers.old.items mount.new answers.new.items }
    ensures idle { result ≡ Done → exchange.new.outgoing ≡ [] }
{
    'parts: for part in streams.chunks(OPENS) {
        exchange.incoming.allow(TURNS);
        let mut watched = serve(alloc, mount, part, exchange, duplex);
        if answers.append(&mut watched.answers).is_err() {
            return End::Memory;
        }
        if watched.end != End::Done {
            return watched.end;
        }
    }
    match duplex.finish() {
        Ok(()) => End::Done,
        Err(_) => End::WriteFault,
    }
}
