/// How a question ends that no verdict and no single cause answers.
#[derive(Clone, Copy, Debug)]
pub(crate) enum Ending {
    // Its stream is gone.
    Removed,
    // Its content is another one now, and it is not asked for again.
    Unsettled,
}
