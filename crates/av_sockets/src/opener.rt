ghost use Rattle.std.specs.Prelude.{◌≡◌, ◌++◌, ◌∷◌, [], IfErr, IfOk, OnOk};
ghost use Rattle.std.specs.Option.{option_copied};
ghost use Rattle.av_sockets.specs.Run.{AddsRead, Leads, LeadsLate, LeadsOn, first};
ghost use Rattle.av_status.specs.Status.{IsFault};

use crate::group::Group;
use crate::line::FilterConnection;
use crate::mount::{add, mount_empty, open, remove};
use crate::sockets::Meeting;
use av_base::{Refusal, StreamId};
use av_files::scanner::Input;
use av_files::streams::say_refused;
use av_filter::Mounted;
use av_pend::Answer;
use av_status::faults::out_of_memory;
use av_status::status::Status;
use av_store::{BootSpent, Volume};
use std::alloc::{AllocError, Global};
use std::fs::Files;
use std::io::Write;
use std::net::Net;
use std::time::Clock;

// A filter on its volume, the line on which one service may join it, and the files that are to be opened next.
pub(crate) struct Opener<'a, R> {
    pub alloc: Global,
    mount: Mounted,
    line: FilterConnection<'a, R>,
    pub group: Group<'a>,
}

impl<'a, R: Files + Net + Clock> Opener<'a, R> {
    // At this socket, of these rights, which is not made yet, and of no file.
    pub(crate) fn new(
        rt: &'a R,
        alloc: Global,
        meeting: Meeting<'a>,
        mode: u32,
    ) -> Result<Opener<'a, R>, Refusal<BootSpent>>
        ensures first { IfOk result (λ o. o.mount ≡ first) }
        ensures empty { IfOk result (λ o. o.group.names.items ≡ []) }
    {
        let line = FilterConnection::new(rt, alloc, meeting, mode)?;
        Ok(Opener {
            alloc,
            mount: mount_empty(alloc)?,
            line,
            group: Group::new(alloc),
        })
    }

    // The streams of the files, as they are.
    pub(crate) fn volume(&self) -> &Volume
        ensures { result.now ≡ self.now.mount.volume }
    {
        self.mount.volume()
    }

    // Makes a file a stream, and adds it to its group. Where it can't be one, a line to `err` says why.
    pub(crate) fn add<E: Write>(
        &mut self,
        name: &'a str,
        content: Option<&[u8]>,
        err: &mut E,
    ) -> Result<(), Status>
        ensures names { OnOk result (self.new.group.names.items ≡ self.old.group.names.items ++ name.entry ∷ []) }
        ensures led { OnOk result
            (AddsRead self.old.mount self.new.mount name.now (option_copied content.entry)) }
        ensures failed { IfErr result (λ status. IsFault status) }
    {
        let bytes = Input { name, content }.readable(err)?;
        match add(self.alloc, &mut self.mount, name.as_bytes(), bytes) {
            Ok(stream) => self.group.add(name, stream, content, err),
            Err(Refusal::Fault(fault)) => Err(say_refused(self.alloc, err, name, fault)),
            Err(Refusal::NoMemory) => Err(out_of_memory(err)),
        }
    }

    // Waits for a service, where it was not done before.
    pub(crate) fn meet(&mut self)
        ensures mount { self.new.mount ≡ self.old.mount }
        ensures group { self.new.group ≡ self.old.group }
    {
        self.line.meet();
    }

    // How the filter's side ended, where that is a fault.
    pub(crate) fn told<E: Write>(&self, err: &mut E) -> Status {
        self.line.told(err)
    }

    // What the open of each file of the group was told, also where no service is there any more.
    pub(crate) fn open(&mut self) -> Result<Vec<Answer>, AllocError>
        ensures led { IfOk result (λ answers.
            Leads self.old.mount self.new.mount answers.items) }
        ensures still { OnOk result (self.new.mount.volume.streams ≡ self.old.mount.volume.streams) }
        ensures group { self.new.group ≡ self.old.group }
    {
        let mut answers = Vec::new(self.alloc);
        let streams = self.group.streams.as_slice();
        self.line.open(&mut self.mount, streams, &mut answers)?;
        open_rest(self.alloc, &mut self.mount, streams, &mut answers)?;
        Ok(answers)
    }

    // Leaves no file in the group, and takes their streams away, with what is known of them.
    pub(crate) fn clear(&mut self) -> Result<(), AllocError>
        ensures led { OnOk result
            (LeadsLate self.old.mount self.new.mount) }
        ensures empty { OnOk result (self.new.group.names.items ≡ []) }
    {
        remove_all(self.alloc, &mut self.mount, self.group.streams.as_slice())?;
        self.group.clear();
        Ok(())
    }

    // Lets all go: no open waits, or nobody hears of it.
    pub(crate) fn end(self) {
        let Opener {
            alloc: _,
            mount,
            line: _,
            group: _,
        } = self;
        let _volume = mount.abandon();
    }
}

// Opens what was not opened, with no service there.
fn open_rest(
    alloc: Global,
    mount: &mut Mounted,
    streams: &[StreamId],
    answers: &mut Vec<Answer>,
) -> Result<(), AllocError>
    ensures { OnOk result
        (LeadsOn mount.old answers.old.items mount.new answers.new.items) }
{
    'streams: for stream in streams.iter().skip(answers.len()) {
        open(alloc, mount, *stream, answers)?;
    }
    Ok(())
}

// Takes streams away, with what is known of them.
fn remove_all(alloc: Global, mount: &mut Mounted, streams: &[StreamId]) -> Result<(), AllocError>
    ensures { OnOk result (LeadsLate mount.old mount.new) }
{
    'streams: for stream in streams {
        remove(alloc, mount, *stream)?;
    }
    Ok(())
}
