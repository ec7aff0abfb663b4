//! What the words of avguard's command line may ask for.

use crate::settings::Settings;
use av_words::{Finding, Named};

/// What the words of the command line ask for.
#[derive(Drop)]
pub enum Request<'a> {
    /// Answer opens that are asked about at a socket, by what the service at another one says, until the program is ended.
    Guard(Guard<'a>),
    /// The same, as a configuration file says where the words don't.
    Configured(Configured<'a>),
    /// Look at a configuration file.
    CheckConfig(&'a str),
    /// Ask a guard about files.
    Ask(Ask<'a>),
    /// Ask a guard how it is.
    Report(Report<'a>),
    /// Open paths for clients of clamd and ask a guard about them, until the program is ended.
    Paths(Paths<'a>),
}

/// Where a guard is joined, and how it answers.
#[derive(Clone, Copy)]
pub struct Guard<'a> {
    /// The socket for opens.
    pub opens: &'a str,
    /// The socket for the service that scans.
    pub service: &'a str,
    /// The socket for clients of clamd.
    pub clamd: Option<&'a str>,
    /// The signature file whose names these are told.
    pub names: Option<&'a str>,
    /// The file of the key that the signature file has to be signed with.
    pub trust: Option<&'a str>,
    /// What can't be judged is let through.
    pub is_open: bool,
    /// The most seconds of a question.
    pub wait: u64,
    /// The most bytes of contents that are kept.
    pub keep: u64,
    /// The most contents that are scanned at a time.
    pub questions: u64,
    /// The most bytes of a content in parts.
    pub max_size: u64,
    /// The most bytes of a content of a client of clamd.
    pub stream_max_size: u64,
    /// The rights of the sockets for opens and for clients of clamd.
    pub mode: u32,
    /// The rights of the socket for the service.
    pub service_mode: u32,
    /// No set of a lesser version is believed or grants.
    pub least: u64,
    /// A service whose set has a greater version is turned away.
    pub most_version: u64,
    /// The file that keeps the greatest version that was believed.
    pub state: Option<&'a str>,
    /// The file that decisions are logged to, `-` for standard error.
    pub log: Option<&'a str>,
    /// Grants are logged too.
    pub log_grants: bool,
    /// The log is lines of JSON.
    pub log_json: bool,
}

/// The path of a configuration file, and what the words say, which counts before what the file says.
#[derive(Clone, Copy)]
pub struct Configured<'a> {
    pub config: &'a str,
    pub words: Settings<'a>,
}

/// Which guard is asked how it is, by its socket for opens, and how that is shown. It may take `wait` seconds to be there, and to say it.
#[derive(Clone, Copy)]
pub struct Report<'a> {
    pub opens: &'a str,
    pub view: View,
    pub wait: u64,
}

/// How it is shown how a guard is.
#[derive(Clone, Copy, Debug, PartialEq, Eq)]
pub enum View {
    /// A line a figure.
    Text,
    /// An object of JSON.
    Json,
    /// The text that Prometheus reads.
    Metrics,
}

/// Which files the guard at a socket is asked about. It may take `wait` seconds to be there, and each answer so long.
#[derive(Drop)]
pub struct Ask<'a> {
    pub opens: &'a str,
    pub named: Named<'a>,
    pub finding: Finding,
    pub wait: u64,
}

/// Where clients name paths, and which of them a guard is asked about.
#[derive(Drop)]
pub struct Paths<'a> {
    /// The socket to which they come.
    pub door: &'a str,
    /// The guard's socket for opens.
    pub opens: &'a str,
    /// The folders whose files may be asked about.
    pub below: Vec<&'a str>,
    /// The most seconds of an answer, a command and a reply.
    pub wait: u64,
    /// How many clients are served at a time.
    pub clients: u64,
    /// The rights of the socket to which they come.
    pub mode: u32,
}
