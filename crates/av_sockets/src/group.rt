ghost use Rattle.std.specs.Prelude.{◌≡◌, ◌++◌, ◌∷◌, [], IfErr, OnOk};
ghost use Rattle.av_status.specs.Status.{IsFault};

use av_base::StreamId;
use av_files::contents::{GROUP_BYTES, counted_bytes};
use av_status::faults::out_of_memory;
use av_status::status::Status;
use std::alloc::Global;
use std::io::Write;

// Files that were read and are to be opened together: their names, and their streams in the same order.
#[derive(Drop)]
pub(crate) struct Group<'a> {
    pub names: Vec<&'a str>,
    pub streams: Vec<StreamId>,
    // How many bytes they count together.
    bytes: usize,
}

impl<'a> Group<'a> {
    // Of no file yet.
    pub(crate) fn new(alloc: Global) -> Group<'a>
        ensures { result.names.items ≡ [] }
    {
        Group {
            names: Vec::new(alloc),
            streams: Vec::new(alloc),
            bytes: 0,
        }
    }

    // Whether no file more is to be read into it.
    pub(crate) fn is_full(&self) -> bool {
        self.bytes >= GROUP_BYTES
    }

    // Adds a file that is this stream. A line to `err` says that there is no memory for it.
    pub(crate) fn add<E: Write>(
        &mut self,
        name: &'a str,
        stream: StreamId,
        content: Option<&[u8]>,
        err: &mut E,
    ) -> Result<(), Status>
        ensures names { OnOk result (self.new.names.items ≡ self.old.names.items ++ name.entry ∷ []) }
        ensures failed { IfErr result (λ status. IsFault status) }
    {
        self.bytes = self.bytes.saturating_add(counted_bytes(content));
        if self.streams.push(stream).is_err() {
            return Err(out_of_memory(err));
        }
        match self.names.push(name) {
            Ok(()) => Ok(()),
            Err(_) => Err(out_of_memory(err)),
        }
    }

    // Leaves no file in it.
    pub(crate) fn clear(&mut self)
        ensures { self.new.names.items ≡ [] }
    {
        self.names.clear();
        self.streams.clear();
        self.bytes = 0;
    }
}
