//! What the words of avscan's command line may ask for.

use av_glob::Glob;
use av_status::faults::EmptySets;
use av_status::tally::Form;
use av_words::{Finding, Named};

/// What the words of the command line ask for.
#[derive(Drop)]
pub enum Request<'a> {
    /// Run a script.
    Run(Script<'a>),
    /// Scan files in this process.
    Scan(Scan<'a>),
    /// Open files through a filter and a service in this process.
    Host(Host<'a>),
    /// Open files through a filter that one service may join at a socket.
    Filter(Filter<'a>),
    /// Scan for the filter at a socket.
    Service(Service<'a>),
    /// Check signature files.
    Check(Check<'a>),
}

/// A script: its file, or `-` for standard input, and how is written what its commands did.
#[derive(Clone, Copy)]
pub struct Script<'a> {
    pub path: &'a str,
    pub form: Form,
}

/// Which files are scanned, under the signature file `set` and at most 15 further ones, and by how many threads, 1 to 64, where that is
/// said. Below a folder what a glob matches is left out, and with `is_one_device` what is on another device than the folder. With
/// `has_all_matches` a file has a line for each signature that occurs in it, and may have 64 MiB at most.
#[derive(Drop)]
pub struct Scan<'a> {
    pub set: &'a str,
    pub more_sets: Vec<&'a str>,
    /// The file of the key that the sets have to be signed with.
    pub trust: Option<&'a str>,
    pub empty_sets: EmptySets,
    pub named: Named<'a>,
    pub finding: Finding,
    pub jobs: Option<usize>,
    pub globs: Vec<Glob>,
    pub is_one_device: bool,
    pub has_all_matches: bool,
    /// The folder that infected files are moved into.
    pub folder: Option<&'a str>,
}

/// Which files are opened, under the signature file `set`, by 1 to 16 threads that open and as many that scan. With a spare a
/// second service stands by, with as many threads of its own.
#[derive(Drop)]
pub struct Host<'a> {
    pub set: &'a str,
    /// The file of the key that the set has to be signed with.
    pub trust: Option<&'a str>,
    pub empty_sets: EmptySets,
    pub named: Named<'a>,
    pub openers: usize,
    pub workers: usize,
    pub has_spare: bool,
}

/// Which files are opened, through which socket: it has these rights, and the service may take `wait` seconds to join.
#[derive(Drop)]
pub struct Filter<'a> {
    pub socket: &'a str,
    pub named: Named<'a>,
    pub wait: u64,
    pub mode: u32,
}

/// A scan under the signature file `set` for the filter at a socket, which may take `wait` seconds to be there. With `watch`
/// newer sets are taken from that file, which is looked at every so many seconds. A spare comes beside another service.
#[derive(Clone, Copy)]
pub struct Service<'a> {
    pub socket: &'a str,
    pub set: &'a str,
    /// The file of the key that each set has to be signed with.
    pub trust: Option<&'a str>,
    pub empty_sets: EmptySets,
    pub wait: u64,
    pub watch: Option<u64>,
    pub is_spare: bool,
}

/// Which signature files are checked.
#[derive(Drop)]
pub struct Check<'a> {
    pub sets: Vec<&'a str>,
    /// The file of the key that they have to be signed with.
    pub trust: Option<&'a str>,
}
