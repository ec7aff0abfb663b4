//! The second connection of a service, over which a guard sends it contents in parts. A thread of its own makes it and serves over it,
//! so that no long content stands before a small one.

use crate::tries::{BEHIND, First, Next, has_second, next_of};
use av_match::Automaton;
use av_parts::{Ended, Newest, serve_parts};
use av_sigset::SignatureSet;
use crossbeam_channel::{Receiver, RecvTimeoutError, Sender, TryRecvError, unbounded};
use mio::net;
use std::alloc::Global;
use std::cell::RefCell;
use std::io::{ErrorKind, Read, Write};
use std::net::Net;
use std::os::unix::net::UnixStream;
use std::sync::atomic::AtomicBool;
use std::sync::atomic::Ordering::SeqCst;
use std::sync::{Arc, Wait};
use std::thread::{JoinHandle, Threads};
use std::time::{Clock, Duration};
use std::{io, thread};

// The longest wait of one read or write, in milliseconds. Behind each it is looked whether the first connection is gone.
const PAUSE: u64 = 500;

// How many milliseconds it is waited for a set before it is looked whether the connection is to be tried.
const LOOK: u64 = 1_000;

/// The second connection, as the thread of the first one has it: where it hands over each set that is published.
pub(crate) struct Second {
    inside: RefCell<Inside>,
    // Whether what came over the second connection is no frame, or no order that a guard sends.
    is_bad: Arc<AtomicBool, Global>,
    handle: JoinHandle<()>,
}

#[derive(Drop)]
struct Inside {
    // The set under which the service greets, until it has greeted.
    first: Option<SignatureSet>,
    // Where sets go. None where one could not be handed over: then there is no second connection any more.
    sets: Option<Sender<SignatureSet, Global>>,
}

impl Second {
    /// Of a service under this set, with the path of its first socket. There is none where the path is too long, or where there is no
    /// memory or no thread for it.
    pub(crate) fn start<R: Net + Clock + Threads + Wait + Copy + Send + 'static>(
        rt: &R,
        alloc: Global,
        path: &str,
        first: Option<SignatureSet>,
    ) -> Option<Second>
    where
        R::Stream: Send,
        R::Listener: Send,
    {
        let is_bad = Arc::new(alloc, AtomicBool::new(false)).ok()?;
        let (sets, handle) = started(rt, alloc, path, is_bad.clone().ok()?)?;
        Some(Second {
            inside: RefCell::new(Inside {
                first,
                sets: Some(sets),
            }),
            is_bad,
            handle,
        })
    }

    /// Whether the service has not greeted on its first connection.
    pub(crate) fn is_silent(&self) -> bool {
        match self.inside.try_borrow_mut() {
            Ok(inside) => inside.first.is_some(),
            Err(_) => false,
        }
    }

    /// The service has greeted.
    pub(crate) fn greeted<R: Wait>(&self, rt: &R) {
        if let Ok(mut inside) = self.inside.try_borrow_mut() {
            let first = inside.first.take();
            inside.hand_over(rt, first);
        }
    }

    /// This set was published.
    pub(crate) fn published<R: Wait>(&self, rt: &R, set: Option<SignatureSet>) {
        if let Ok(mut inside) = self.inside.try_borrow_mut() {
            inside.hand_over(rt, set);
        }
    }

    /// Whether bad bytes came since it was asked last.
    pub(crate) fn was_bad(&self) -> bool {
        self.is_bad.swap(false, SeqCst)
    }

    /// The first connection is gone. It waits for the second one's end, about half a second at most, and answers whether bad bytes came
    /// since it was asked last.
    pub(crate) fn end<R: Threads>(self, rt: &R) -> bool {
        let Second {
            inside,
            is_bad,
            handle,
        } = self;
        drop(inside);
        handle.join(rt);
        is_bad.swap(false, SeqCst)
    }
}

impl Inside {
    fn hand_over<R: Wait>(&mut self, rt: &R, set: Option<SignatureSet>) {
        let is_sent = match (&self.sets, set) {
            (Some(sets), Some(set)) => sets.send(rt, set).is_ok(),
            _ => false,
        };
        if !is_sent {
            self.sets = None;
        }
    }
}

// Starts the thread.
fn started<R: Net + Clock + Threads + Wait + Copy + Send + 'static>(
    rt: &R,
    alloc: Global,
    path: &str,
    is_bad: Arc<AtomicBool, Global>,
) -> Option<(Sender<SignatureSet, Global>, JoinHandle<()>)>
where
    R::Stream: Send,
    R::Listener: Send,
{
    if !has_second(path.len()) {
        return None;
    }
    let place = format!(in alloc; "{path}{BEHIND}").ok()?;
    let (sets, came) = unbounded(alloc).ok()?;
    let system = *rt;
    let handle = thread::spawn(rt, move || {
        serve_second(&system, alloc, place.as_str(), came, &is_bad);
    })
    .ok()?;
    Some((sets, handle))
}

// What has come of the first connection.
#[derive(Drop)]
struct Sets {
    alloc: Global,
    came: Receiver<SignatureSet, Global>,
    first: First,
    // The newest set, until its automaton is made.
    newest: Option<SignatureSet>,
    automaton: Option<Arc<Automaton, Global>>,
}

impl Sets {
    // Takes all that has come, without a wait.
    fn take<R: Wait>(&mut self, rt: &R) {
        'sets: for _ in 0..u64::MAX {
            match self.came.try_recv(rt) {
                Ok(set) => self.put(set),
                Err(TryRecvError::Empty) => return,
                Err(TryRecvError::Disconnected) => {
                    self.first = First::Gone;
                    return;
                }
            }
        }
    }

    // Waits a second for what comes, and takes it.
    fn wait<R: Wait + Clock>(&mut self, rt: &R) {
        match self.came.recv_timeout(rt, Duration::from_millis(LOOK)) {
            Ok(set) => self.put(set),
            Err(RecvTimeoutError::Timeout) => {}
            Err(RecvTimeoutError::Disconnected) => self.first = First::Gone,
        }
    }

    fn put(&mut self, set: SignatureSet) {
        self.first = First::Greeted;
        self.newest = Some(set);
    }

    // Makes the automaton of the newest set, once. Whether it did: where there is no memory for it, it is made at a later look.
    fn compile(&mut self) -> bool {
        let Some(set) = &self.newest else {
            return false;
        };
        let Ok(automaton) = Automaton::build(self.alloc, set) else {
            return false;
        };
        let Ok(automaton) = Arc::new(self.alloc, automaton) else {
            return false;
        };
        self.automaton = Some(automaton);
        self.newest = None;
        true
    }

    fn shared(&self) -> Option<Arc<Automaton, Global>> {
        self.automaton.as_ref()?.clone().ok()
    }
}

// Looks for newer sets, and learns whether the first connection is gone.
#[derive(Drop)]
struct Looking<'a, 'b, R> {
    rt: &'a R,
    sets: &'b RefCell<Sets>,
}

impl<'a, 'b, R: Wait> Newest for Looking<'a, 'b, R> {
    ghost use Rattle.std.specs.Prelude.{None};

    ghost looks = { λ _. None };

    fn newer(&mut self) -> Option<Arc<Automaton, Global>> {
        let Ok(mut sets) = self.sets.try_borrow_mut() else {
            return None;
        };
        sets.take(self.rt);
        if !sets.compile() {
            return None;
        }
        sets.shared()
    }
}

// The second connection. A read or a write that was in vain is made again, until the first connection is gone.
#[derive(Drop)]
struct Wire<'a, 'b, R> {
    rt: &'a R,
    stream: &'b UnixStream,
    sets: &'b RefCell<Sets>,
}

impl<'a, 'b, R: Wait> Wire<'a, 'b, R> {
    fn is_gone(&self) -> bool {
        match self.sets.try_borrow_mut() {
            Ok(mut sets) => {
                sets.take(self.rt);
                sets.first == First::Gone
            }
            Err(_) => true,
        }
    }
}

impl<'a, 'b, R: Wait> Read for Wire<'a, 'b, R> {
    fn read(&mut self, buf: &mut [u8]) -> io::Result<usize> {
        if self.is_gone() {
            return Err(io::Error::from(ErrorKind::ConnectionAborted));
        }
        let mut reader = self.stream;
        reader.read(buf)
    }
}

impl<'a, 'b, R: Wait> Write for Wire<'a, 'b, R> {
    fn write(&mut self, buf: &[u8]) -> io::Result<usize> {
        'writes: for _ in 0..u64::MAX {
            let mut writer = self.stream;
            match writer.write(buf) {
                Ok(count) => return Ok(count),
                Err(error) if !is_passing(error.kind()) => return Err(error),
                Err(error) if self.is_gone() => return Err(error),
                Err(_) => {}
            }
        }
        Err(io::Error::from(ErrorKind::TimedOut))
    }

    fn flush(&mut self) -> io::Result<()> {
        Ok(())
    }
}

// Whether a write is to be made again.
fn is_passing(kind: ErrorKind) -> bool {
    matches!(kind, ErrorKind::WouldBlock | ErrorKind::Interrupted)
}

// Makes the second connection, again and again, and serves over it, as long as the first one lives.
fn serve_second<R: Net + Clock + Wait>(
    rt: &R,
    alloc: Global,
    path: &str,
    came: Receiver<SignatureSet, Global>,
    is_bad: &AtomicBool,
) {
    let sets = RefCell::new(Sets {
        alloc,
        came,
        first: First::Silent,
        newest: None,
        automaton: None,
    });
    let mut tried: Option<Duration> = None;
    let mut was_bad = false;
    'looks: for _ in rt.forever() {
        match next_of(first_of(rt, &sets), ago(rt, tried)) {
            Next::Ends => return,
            Next::Waits => await_set(rt, &sets),
            Next::Tries => {
                let end = serve_once(rt, alloc, path, &sets);
                if matches!(end, Some(Ended::Order(_)) | Some(Ended::Judge(_))) && !was_bad {
                    is_bad.store(true, SeqCst);
                    was_bad = true;
                }
                tried = rt.monotonic().ok();
            }
        }
    }
}

// What is known of the first connection now.
fn first_of<R: Wait>(rt: &R, sets: &RefCell<Sets>) -> First {
    match sets.try_borrow_mut() {
        Ok(mut sets) => {
            sets.take(rt);
            sets.first
        }
        Err(_) => First::Gone,
    }
}

fn await_set<R: Wait + Clock>(rt: &R, sets: &RefCell<Sets>) {
    if let Ok(mut sets) = sets.try_borrow_mut() {
        sets.wait(rt);
    }
}

// How long ago that moment is.
fn ago<R: Clock>(rt: &R, moment: Option<Duration>) -> Option<Duration> {
    match rt.monotonic() {
        Ok(now) => Some(now.saturating_sub(moment?)),
        Err(_) => Some(Duration::ZERO),
    }
}

// One try. None where nobody listens.
fn serve_once<R: Net + Wait>(
    rt: &R,
    alloc: Global,
    path: &str,
    sets: &RefCell<Sets>,
) -> Option<Ended> {
    let stream = connected(rt, path)?;
    let automaton = newest_of(sets)?;
    let mut looking = Looking { rt, sets };
    let mut reader = Wire {
        rt,
        stream: &stream,
        sets,
    };
    let mut writer = Wire {
        rt,
        stream: &stream,
        sets,
    };
    Some(serve_parts(
        alloc,
        automaton,
        &mut looking,
        &mut reader,
        &mut writer,
        u64::MAX,
    ))
}

// A connection to who listens there, whose reads and writes have a time. No call waits, also not where as many others wait there as may.
fn connected<R: Net>(rt: &R, path: &str) -> Option<UnixStream> {
    let stream: UnixStream = net::UnixStream::connect(rt, path).ok()?.into();
    let pause = Some(Duration::from_millis(PAUSE));
    stream.set_nonblocking(false).ok()?;
    stream.set_read_timeout(pause).ok()?;
    stream.set_write_timeout(pause).ok()?;
    Some(stream)
}

// The automaton of the newest set that has come.
fn newest_of(sets: &RefCell<Sets>) -> Option<Arc<Automaton, Global>> {
    let mut sets = sets.try_borrow_mut().ok()?;
    sets.compile();
    if sets.newest.is_some() {
        return None;
    }
    sets.shared()
}
