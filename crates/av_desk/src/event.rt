use av_base::{Lease, Version};
use av_frame::Message;
use av_service::ContentScan;
use av_sigset::SignatureSet;
use std::snapshot::Snapshot;

/// What a desk was asked, with its arguments.
#[derive(Drop)]
pub enum Event {
    /// The service connects.
    Connect,
    /// A message of the filter came.
    Receive {
        message: Message,
    },
    /// A work came back under its lease, with its scan after the run.
    Finish {
        lease: Lease,
        scan: ContentScan,
    },
    /// A set was published as this version.
    Publish {
        version: Version,
        set: Snapshot<SignatureSet>,
    },
    /// The connection is gone.
    Disconnect,
    /// The service starts anew under the version published last, or 0.
    Restart {
        latest: Version,
    },
}
