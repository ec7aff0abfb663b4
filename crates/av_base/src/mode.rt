/// What becomes of an open that can't be judged. A filter keeps its mode from mount to mount.
#[derive(Clone, Copy, Debug, PartialEq, Eq)]
pub enum Mode {
    /// It is denied.
    FailClosed,
    /// It is let through as unscanned.
    FailOpen,
}
