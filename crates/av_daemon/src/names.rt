ghost use Rattle.std.specs.Prelude.{◌≡◌, false, true, None};
ghost use Rattle.std.specs.Option.{option_copied};
ghost use Rattle.av_daemon.specs.Names.{count_of, has, is_missing, name_at, name_of};

use av_base::Version;
use av_base::recorded::{Recorded, read_whole};
use av_files::{MAX_FILE, TURNS};
use av_guard::Answered;
use av_sigset::SignatureSet;
use av_sockets::{Look, looked_at};
use av_trust::{Trust, text_of};
use std::alloc::Global;
use std::fs;
use std::fs::Files;

/// The names of signatures, from a signature file that is read again where it has changed and a verdict names a version that is
/// not held.
#[derive(Drop)]
pub struct Names<'a> {
    path: Option<&'a str>,
    trust: Trust<'a>,
    set: Option<SignatureSet>,
    looked: Option<Look>,
}

impl<'a> Names<'a> {
    /// Those of the set in this file, where one was named, as far as it is trusted.
    pub fn new(path: Option<&'a str>, trust: Trust<'a>) -> Names<'a>
        ensures { result ≡ record { path = path.entry; trust = trust.entry; set = None; looked = None } }
    {
        Names {
            path,
            trust,
            set: None,
            looked: None,
        }
    }

    /// Reads the file again, where an answer names a signature of a set that isn't there.
    pub fn look<R: Files>(&mut self, rt: &R, alloc: Global, answer: Answered)
        ensures { is_missing answer self.old.set ≡ false → self.new ≡ self.old }
    {
        match answer {
            Answered::Infected { version, .. } if !self.has(version) => self.read(rt, alloc),
            _ => {}
        }
    }

    /// Reads the file again, where the set of this version isn't there.
    pub fn follow<R: Files>(&mut self, rt: &R, alloc: Global, version: Version)
        ensures { has version self.old.set ≡ true → self.new ≡ self.old }
    {
        if !self.has(version) {
            self.read(rt, alloc);
        }
    }

    /// How many signatures the set of this version has, where it is there; else 0.
    pub fn count_of(&self, version: Version) -> u64
        ensures { result ≡ count_of version self.now.set }
    {
        match &self.set {
            Some(set) if set.version() == version => set.len() as u64,
            _ => 0,
        }
    }

    /// The name of the signature that an answer names, where it names one and the set of its version is there.
    pub fn name_in(&self, answer: Answered) -> Option<&[u8]>
        ensures { option_copied result ≡ name_of answer self.now.set }
    {
        match answer {
            Answered::Infected {
                version,
                signature,
                ..
            } => self.name_of(version, signature),
            _ => None,
        }
    }

    // The name of the signature at this place of the set of this version.
    fn name_of(&self, version: Version, place: u32) -> Option<&[u8]>
        ensures { option_copied result ≡ name_at version place self.now.set }
    {
        match &self.set {
            Some(set) if set.version() == version => set.name(place as usize),
            _ => None,
        }
    }

    fn has(&self, version: Version) -> bool
        ensures { result ≡ has version self.now.set }
    {
        match &self.set {
            Some(set) => set.version() == version,
            None => false,
        }
    }

    // Reads the file, where it isn't what was read last. What is no set leaves that.
    fn read<R: Files>(&mut self, rt: &R, alloc: Global) {
        let Some(path) = self.path else {
            return;
        };
        let look = looked_at(rt, path);
        if look.is_none() || look == self.looked {
            return;
        }
        self.looked = look;
        if let Some(set) = set_in(rt, alloc, path, self.trust) {
            self.set = Some(set);
        }
    }
}

fn set_in<R: Files>(rt: &R, alloc: Global, path: &str, trust: Trust<'_>) -> Option<SignatureSet> {
    let file = fs::open(rt, path).ok()?;
    let bytes = read_whole(alloc, &mut Recorded::new(file), MAX_FILE, TURNS).ok()?;
    let text = text_of(trust, bytes.as_slice()).ok()?;
    SignatureSet::read(alloc, text).ok()
}
