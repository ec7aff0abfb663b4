//! What the words of avtool's command line may ask for.

/// What the words of the command line ask for.
#[derive(Drop)]
pub enum Request<'a> {
    /// Draw the run of a script.
    Chart(Chart<'a>),
    /// Print a random script.
    Generate(Generate),
    /// Write a signature file with the signatures of files of other products.
    Import(Import<'a>),
    /// Write a signature file of several.
    Merge(Merge<'a>),
    /// Sign a signature file.
    Sign(Sign<'a>),
}

/// The script in this file, or on standard input for `-`, of which the lines `from` to `to` are drawn, counted from 1.
#[derive(Clone, Copy)]
pub struct Chart<'a> {
    pub script: &'a str,
    pub from: u64,
    pub to: u64,
}

/// A random script of 1 to 100,000 commands.
#[derive(Clone, Copy)]
pub struct Generate {
    pub seed: u64,
    pub commands: u64,
    /// Each command is drawn as often as any other.
    pub is_uniform: bool,
}

/// Which files signatures are taken from, the version of the signature file that is written, and the file that is written instead of
/// standard output.
#[derive(Drop)]
pub struct Import<'a> {
    pub files: Vec<&'a str>,
    pub version: u64,
    pub taking: Taking,
    pub output: Option<&'a str>,
}

/// Which signatures of other products are taken.
#[derive(Clone, Copy, Debug, PartialEq, Eq)]
pub struct Taking {
    /// Those for files of one kind stand for all files.
    pub takes_any_target: bool,
    /// Those that are bound to a place are left out.
    pub has_format_1: bool,
    /// Nothing is written where anything was left out.
    pub wants_all: bool,
}

/// Which signature files are merged, the version of the one that is written if it isn't the greatest of theirs, and the file that is
/// written instead of standard output.
#[derive(Drop)]
pub struct Merge<'a> {
    pub files: Vec<&'a str>,
    /// The file of the key that they have to be signed with.
    pub trust: Option<&'a str>,
    pub version: Option<u64>,
    pub output: Option<&'a str>,
}

/// Which signature file is signed with the key in which file, and the file that is written instead of standard output.
#[derive(Clone, Copy)]
pub struct Sign<'a> {
    pub set: &'a str,
    pub key: &'a str,
    /// The file of the key that the set has to be signed with already.
    pub trust: Option<&'a str>,
    pub output: Option<&'a str>,
}
