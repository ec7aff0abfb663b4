ghost use Rattle.std.specs.Prelude.{◌≡◌};
ghost use Rattle.avguard_words.specs.Settings.{guard_at, settings_over};

use crate::request::Guard;

/// What one source, the command line or a configuration file, says of how a guard is run. What it doesn't say is `None`.
#[derive(Clone, Copy, Debug, PartialEq, Eq)]
pub struct Settings<'a> {
    pub opens: Option<&'a str>,
    pub service: Option<&'a str>,
    pub clamd: Option<&'a str>,
    pub names: Option<&'a str>,
    pub trust: Option<&'a str>,
    pub is_open: Option<bool>,
    pub wait: Option<u64>,
    pub keep: Option<u64>,
    pub questions: Option<u64>,
    pub max_size: Option<u64>,
    pub stream_max_size: Option<u64>,
    pub mode: Option<u32>,
    pub service_mode: Option<u32>,
    pub least: Option<u64>,
    pub most_version: Option<u64>,
    pub state: Option<&'a str>,
    pub log: Option<&'a str>,
    pub log_grants: Option<bool>,
    pub log_json: Option<bool>,
}

/// A source that says nothing.
pub const NOTHING_SAID: Settings<'static> = Settings {
    opens: None,
    service: None,
    clamd: None,
    names: None,
    trust: None,
    is_open: None,
    wait: None,
    keep: None,
    questions: None,
    max_size: None,
    stream_max_size: None,
    mode: None,
    service_mode: None,
    least: None,
    most_version: None,
    state: None,
    log: None,
    log_grants: None,
    log_json: None,
};

impl<'a> Settings<'a> {
    /// What this source says, and the other one where this one says nothing.
    pub fn over(self, other: Settings<'a>) -> Settings<'a>
        ensures { result ≡ settings_over self.entry other.entry }
    {
        Settings {
            opens: self.opens.or(other.opens),
            service: self.service.or(other.service),
            clamd: self.clamd.or(other.clamd),
            names: self.names.or(other.names),
            trust: self.trust.or(other.trust),
            is_open: self.is_open.or(other.is_open),
            wait: self.wait.or(other.wait),
            keep: self.keep.or(other.keep),
            questions: self.questions.or(other.questions),
            max_size: self.max_size.or(other.max_size),
            stream_max_size: self.stream_max_size.or(other.stream_max_size),
            mode: self.mode.or(other.mode),
            service_mode: self.service_mode.or(other.service_mode),
            least: self.least.or(other.least),
            most_version: self.most_version.or(other.most_version),
            state: self.state.or(other.state),
            log: self.log.or(other.log),
            log_grants: self.log_grants.or(other.log_grants),
            log_json: self.log_json.or(other.log_json),
        }
    }

    /// The guard that is run so at these two sockets.
    pub fn guard_at(self, opens: &'a str, service: &'a str) -> Guard<'a>
        ensures { result ≡ guard_at self.entry opens.entry service.entry }
    {
        Guard {
            opens,
            service,
            clamd: self.clamd,
            names: self.names,
            trust: self.trust,
            is_open: self.is_open.unwrap_or(false),
            wait: self.wait.unwrap_or(30),
            keep: self.keep.unwrap_or(67_108_864),
            questions: self.questions.unwrap_or(256),
            max_size: self.max_size.unwrap_or(9_223_372_036_854_775_807),
            stream_max_size: self.stream_max_size.unwrap_or(26_214_399),
            mode: self.mode.unwrap_or(0o600),
            service_mode: self.service_mode.unwrap_or(0o600),
            least: self.least.unwrap_or(0),
            most_version: self.most_version.unwrap_or(18_446_744_073_709_551_615),
            state: self.state,
            log: self.log,
            log_grants: self.log_grants.unwrap_or(false),
            log_json: self.log_json.unwrap_or(false),
        }
    }
}
