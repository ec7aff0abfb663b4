use av_base::Lease;

/// What a worker calls round each work, by its lease: a program that counts or slows its workers hooks in here. A call of
/// `before` may wait, and then that worker does.
pub trait Pace {
    /// The work of this lease is about to be run.
    fn before(&self, lease: Lease);

    /// The work of this lease was run, and is about to be sent.
    fn after(&self, lease: Lease);
}

/// No pace: works are run as they come.
impl Pace for () {
    fn before(&self, _lease: Lease) {}

    fn after(&self, _lease: Lease) {}
}
