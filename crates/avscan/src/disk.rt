//! The files of the system, as a scan opens them.

use av_program::{Source, open_file, open_met, say_why};
use av_scan::{Opening, Origin, Seen};
use std::fs::{File, OpenFile};
use std::io::Write;

/// Files by their names. Of those that were named, `-` is standard input.
#[derive(Clone, Copy)]
pub struct Disk {
    pub rt: HostRuntime,
}

impl Opening<File> for Disk {
    ghost use Rattle.avscan.specs.Scanning.{IsOpen};

    ghost is_of = { λ _ name file. IsOpen name file };

    fn opened(&self, name: &str, origin: Origin) -> Option<File> {
        match origin {
            Origin::Met => open_met(&self.rt, name),
            Origin::Named if name == "-" => open_file(&self.rt, "/dev/stdin"),
            Origin::Named => open_file(&self.rt, name),
        }
    }

    fn seen(&self, file: &File) -> Option<Seen> {
        match file.metadata() {
            Ok(metadata) => Some(Seen::of(&metadata)),
            Err(_) => None,
        }
    }

    fn explain<E: Write>(&self, name: &str, origin: Origin, err: &mut E) {
        match origin {
            Origin::Met => say_why(&self.rt, self.rt.alloc(), name, Source::Met, err),
            Origin::Named if name == "-" => {}
            Origin::Named => say_why(&self.rt, self.rt.alloc(), name, Source::Named, err),
        }
    }
}
