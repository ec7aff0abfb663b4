use av_service::Done;

/// What a pool that was stopped still had. It must be spent: take the list, or `discard` it.
pub struct Stopped {
    /// Works that were run and that nobody took.
    pub dones: Vec<Done>,
}

impl Stopped {
    /// Lets all of it go, at the end of a program.
    pub fn discard(self) {
        let Stopped { mut dones } = self;
        while let Some(done) = dones.pop() {
            done.discard();
        }
        dones.destroy_empty();
    }
}
