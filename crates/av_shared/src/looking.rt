use std::alloc::Global;
use std::marker::Send;
use std::thread;
use std::thread::Threads;

/// What a look at a closed run goes by: the system and its memory, and how many threads may look at once. With 0 or 1 the thread that
/// looks does all. Where a thread can't be started, the one that wanted it does its part.
#[derive(Drop)]
pub struct Looking<'a, R> {
    pub rt: &'a R,
    pub alloc: Global,
    pub threads: usize,
}

impl<'a, R: Threads> Looking<'a, R> {
    /// Makes both looks, each in a thread of its own if there may be two. Else the second comes first.
    pub fn both<F: FnOnce() -> A + Send, G: FnOnce() -> B, A: Send, B>(
        &self,
        one: F,
        other: G,
    ) -> (A, B)
        requires { F.pre one × G.pre other }
        ensures one { F.post one result.0 }
        ensures other { G.post other result.1 }
    {
        if self.threads < 2 {
            let second = other();
            return (one(), second);
        }
        thread::join(self.rt, one, other)
    }
}
