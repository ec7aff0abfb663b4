//! A filter as plain lists, written anew from docs/CONDUCT.md for the tests: it shares no code with the filter. It has no
//! cache, which no sequence of events can tell: within one boot the floor only rises, and a restart empties the cache.
use crate::tests::steps::Step;
use av_base::{MessageId, Mode, Port};
use std::alloc::{AllocError, Global};

// What is known of a stream.
#[derive(Clone, Copy, PartialEq, Eq)]
enum Known {
    Nothing,
    Modified,
    Scanning,
    Judged { version: u64, infected: bool },
}

#[derive(Drop)]
struct PlainStream {
    id: u64,
    generation: u64,
    bytes: Vec<u8>,
    known: Known,
}

#[derive(Clone, Copy)]
struct PlainQuestion {
    seq: u64,
    port: Port,
    stream: u64,
    generation: u64,
}

#[derive(Clone, Copy)]
struct PlainOpen {
    id: u64,
    stream: u64,
    least: u64,
    question: u64,
    rescans: u64,
}

// An open that is answered by the mode: its number, its stream, and the cause.
#[derive(Clone, Copy)]
struct PlainLoss {
    id: u64,
    stream: u64,
    cause: u64,
}

#[derive(Drop)]
pub(crate) struct Plain {
    alloc: Global,
    mode: Mode,
    boot: u64,
    seq: u64,
    opens: u64,
    one: bool,
    two: bool,
    floor: u64,
    streams: Vec<PlainStream>,
    questions: Vec<PlainQuestion>,
    waiting: Vec<PlainOpen>,
}

impl Plain {
    // A filter of boot 1 of a volume with the streams 1 and 2, without bytes.
    pub(crate) fn new(alloc: Global, mode: Mode) -> Result<Plain, AllocError> {
        let mut streams = Vec::new(alloc);
        for id in [1u64, 2] {
            streams.push(PlainStream {
                id,
                generation: 1,
                bytes: Vec::new(alloc),
                known: Known::Nothing,
            })?;
        }
        Ok(Plain {
            alloc,
            mode,
            boot: 1,
            seq: 0,
            opens: 0,
            one: false,
            two: false,
            floor: 0,
            streams,
            questions: Vec::new(alloc),
            waiting: Vec::new(alloc),
        })
    }

    pub(crate) fn boot(&self) -> u64 {
        self.boot
    }

    // The number of the last question.
    pub(crate) fn last(&self) -> u64 {
        self.seq
    }

    // How many questions run, and how many opens wait.
    pub(crate) fn counts(&self) -> (usize, usize) {
        (self.questions.len(), self.waiting.len())
    }

    // Whether an open of the stream waits.
    pub(crate) fn waits_for(&self, stream: u64) -> bool {
        self.waiting.iter().any(|w| w.stream == stream)
    }

    // Whether an open waits, and a verdict is known of a stream.
    pub(crate) fn has_both(&self) -> bool {
        let is_known = self.streams.iter().any(|s| matches!(
            s.known,
            Known::Judged {
                version: _,
                infected: _
            }
        ));
        is_known && !self.waiting.is_empty()
    }

    // What it gives out at a step that comes at a port, with limits of two questions and three held opens.
    pub(crate) fn take(&mut self, port: Port, step: Step<'_>) -> Result<String, AllocError> {
        let mut text = String::new(self.alloc);
        self.happen(port, step, &mut text)?;
        Ok(text)
    }

    fn happen(&mut self, port: Port, step: Step<'_>, text: &mut String) -> Result<(), AllocError> {
        match step {
            Step::Open(stream, least) => self.open(stream, least, text),
            Step::Write(stream, offset, bytes) => self.write(stream, offset, bytes, text),
            Step::Cut(stream, length) => self.cut(stream, length, text),
            Step::Remove(stream) => self.remove(stream, text),
            Step::Cleanup(stream) => self.cleanup(stream, text),
            Step::Timeout(seq) => self.time_out(seq, text),
            Step::Disconnect => self.disconnect(port, text),
            _ => self.hear(port, step, text),
        }
    }

    // A message of the service of a port.
    fn hear(&mut self, port: Port, step: Step<'_>, text: &mut String) -> Result<(), AllocError> {
        match step {
            Step::Hello(_, version) => self.hello(port, version, text),
            Step::Updated(version) => {
                self.floor = self.floor.max(version);
                Ok(())
            }
            Step::Read(boot, seq, offset, count) => {
                self.read(port, MessageId { boot, seq }, offset, count, text)
            }
            Step::Clean(boot, seq, version) => {
                self.reply(port, MessageId { boot, seq }, version, false, text)
            }
            Step::Infected(boot, seq, version) => {
                self.reply(port, MessageId { boot, seq }, version, true, text)
            }
            Step::Failed(boot, seq) => self.fail(port, MessageId { boot, seq }, text),
            _ => self.add(text, "note Ignored"),
        }
    }

    // What it gives out at a restart.
    pub(crate) fn restart(&mut self) -> Result<String, AllocError> {
        let mut text = String::new(self.alloc);
        self.refuse_all(10, &mut text)?;
        self.boot = self.boot.wrapping_add(1);
        self.seq = 0;
        self.one = false;
        self.two = false;
        self.floor = 0;
        for stream in self.streams.iter_mut() {
            stream.known = Known::Nothing;
        }
        Ok(text)
    }

    fn is_connected(&self, port: Port) -> bool {
        match port {
            Port::One => self.one,
            Port::Two => self.two,
        }
    }

    fn set_connected(&mut self, port: Port, connected: bool) {
        match port {
            Port::One => self.one = connected,
            Port::Two => self.two = connected,
        }
    }

    // Where a question is asked.
    fn least(&self) -> Option<Port> {
        if self.one {
            Some(Port::One)
        } else if self.two {
            Some(Port::Two)
        } else {
            None
        }
    }

    // The question of an id, if it runs on this port.
    fn question_on(&self, port: Port, id: MessageId) -> Option<PlainQuestion> {
        let question = self.question_of(id)?;
        if question.port == port {
            Some(question)
        } else {
            None
        }
    }

    // The question of an id, if it runs.
    fn question_of(&self, id: MessageId) -> Option<PlainQuestion> {
        if id.boot != self.boot {
            return None;
        }
        self.questions.iter().find(|q| q.seq == id.seq).copied()
    }

    fn generation_of(&self, stream: u64) -> u64 {
        match self.streams.iter().find(|s| s.id == stream) {
            Some(found) => found.generation,
            None => 0,
        }
    }

    fn set_known(&mut self, stream: u64, known: Known) {
        for found in self.streams.iter_mut() {
            if found.id == stream {
                found.known = known;
            }
        }
    }

    fn add(&self, text: &mut String, part: &str) -> Result<(), AllocError> {
        if !text.is_empty() {
            text.push_str(", ")?;
        }
        text.push_str(part)
    }

    // The answer by the mode.
    fn unjudged(
        &self,
        id: u64,
        stream: u64,
        cause: u64,
        text: &mut String,
    ) -> Result<(), AllocError> {
        let generation = self.generation_of(stream);
        let part = match self.mode {
            Mode::FailClosed => format!(in self.alloc; "open {id} denied cause {cause}")?,
            Mode::FailOpen => {
                format!(in self.alloc;
                    "open {id} unscanned stream {stream} generation {generation} cause {cause}"
                )?
            }
        };
        self.add(text, part.as_str())
    }

    // The answer by a verdict.
    fn judged(
        &self,
        open: PlainOpen,
        generation: u64,
        version: u64,
        infected: bool,
        text: &mut String,
    ) -> Result<(), AllocError> {
        let id = open.id;
        let stream = open.stream;
        let least = open.least;
        let part = if infected {
            format!(in self.alloc; "open {id} denied cause 2")?
        } else {
            format!(in self.alloc;
                "open {id} granted stream {stream} generation {generation} version {version} least {least}"
            )?
        };
        self.add(text, part.as_str())
    }

    // A message at a port.
    fn send(&self, port: Port, line: &str, text: &mut String) -> Result<(), AllocError> {
        self.add(text, line)?;
        match port {
            Port::One => Ok(()),
            Port::Two => text.push_str(" port 2"),
        }
    }

    // A question is asked of the present content.
    fn ask(&mut self, port: Port, stream: u64, text: &mut String) -> Result<(), AllocError> {
        self.seq = self.seq.wrapping_add(1);
        let (boot, seq) = (self.boot, self.seq);
        let generation = self.generation_of(stream);
        let length = match self.streams.iter().find(|s| s.id == stream) {
            Some(found) => found.bytes.len(),
            None => 0,
        };
        self.questions.push(PlainQuestion {
            seq,
            port,
            stream,
            generation,
        })?;
        self.set_known(stream, Known::Scanning);
        let part = format!(in self.alloc;
            "scan {boot}.{seq} stream {stream} generation {generation} length {length}"
        )?;
        self.send(port, part.as_str(), text)
    }

    fn open(&mut self, stream: u64, least: u64, text: &mut String) -> Result<(), AllocError> {
        self.opens = self.opens.wrapping_add(1);
        self.floor = self.floor.max(least);
        let id = self.opens;
        self.submit(id, stream, least, text)?;
        let part = format!(in self.alloc; "number {id}")?;
        self.add(text, part.as_str())
    }

    fn submit(
        &mut self,
        id: u64,
        stream: u64,
        least: u64,
        text: &mut String,
    ) -> Result<(), AllocError> {
        let Some(found) = self.streams.iter().find(|s| s.id == stream) else {
            let part = format!(in self.alloc; "open {id} denied cause 1")?;
            return self.add(text, part.as_str());
        };
        let (known, generation) = (found.known, found.generation);
        let mut open = PlainOpen {
            id,
            stream,
            least,
            question: 0,
            rescans: 0,
        };
        if let Known::Judged { version, infected } = known {
            if version == self.floor {
                return self.judged(open, generation, version, infected, text);
            }
        }
        let full = self.waiting.len() >= 3;
        if let Some(question) = self.questions.iter().find(|q| q.stream == stream) {
            if full {
                return self.unjudged(id, stream, 4, text);
            }
            open.question = question.seq;
            return Ok(self.waiting.push(open)?);
        }
        if full {
            return self.unjudged(id, stream, 4, text);
        }
        let Some(port) = self.least() else {
            return self.unjudged(id, stream, 3, text);
        };
        if self.questions.len() >= 2 {
            return self.unjudged(id, stream, 4, text);
        }
        self.ask(port, stream, text)?;
        open.question = self.seq;
        Ok(self.waiting.push(open)?)
    }

    fn write(
        &mut self,
        stream: u64,
        offset: u64,
        bytes: &[u8],
        text: &mut String,
    ) -> Result<(), AllocError> {
        let Some(found) = self.streams.iter_mut().find(|s| s.id == stream) else {
            return self.add(text, "refused NoStream");
        };
        if offset > found.bytes.len() as u64 {
            return self.add(text, "refused Hole");
        }
        overwrite(&mut found.bytes, offset as usize, bytes)?;
        found.generation = found.generation.wrapping_add(1);
        self.changed(stream, text)
    }

    fn cut(&mut self, stream: u64, length: u64, text: &mut String) -> Result<(), AllocError> {
        let Some(found) = self.streams.iter_mut().find(|s| s.id == stream) else {
            return self.add(text, "refused NoStream");
        };
        if length > found.bytes.len() as u64 {
            return self.add(text, "refused Hole");
        }
        found.bytes.truncate(length as usize);
        found.generation = found.generation.wrapping_add(1);
        self.changed(stream, text)
    }

    fn remove(&mut self, stream: u64, text: &mut String) -> Result<(), AllocError> {
        if !self.streams.iter().any(|s| s.id == stream) {
            return self.add(text, "refused NoStream");
        }
        self.streams.retain(|s| s.id != stream);
        let Some(question) = self.questions.iter().find(|q| q.stream == stream).copied() else {
            return Ok(());
        };
        let seq = question.seq;
        self.questions.retain(|q| q.seq != seq);
        for open in self.waiting.as_slice() {
            if open.question == seq {
                let id = open.id;
                let part = format!(in self.alloc; "open {id} denied cause 9")?;
                self.add(text, part.as_str())?;
            }
        }
        self.waiting.retain(|w| w.question != seq);
        self.abort(question, text)
    }

    fn abort(&self, question: PlainQuestion, text: &mut String) -> Result<(), AllocError> {
        let (boot, seq) = (self.boot, question.seq);
        let part = format!(in self.alloc; "abort {boot}.{seq}")?;
        self.send(question.port, part.as_str(), text)
    }

    fn changed(&mut self, stream: u64, text: &mut String) -> Result<(), AllocError> {
        match self.questions.iter().find(|q| q.stream == stream).copied() {
            Some(question) => self.again(question, true, text),
            None => {
                self.set_known(stream, Known::Modified);
                Ok(())
            }
        }
    }

    fn again(
        &mut self,
        question: PlainQuestion,
        abort: bool,
        text: &mut String,
    ) -> Result<(), AllocError> {
        let mut lost = Vec::new(self.alloc);
        let mut scan = String::new(self.alloc);
        self.ask_again(question, &mut lost, &mut scan)?;
        self.tell(lost.as_slice(), text)?;
        if abort {
            self.abort(question, text)?;
        }
        self.add_some(text, scan.as_str())
    }

    // A question ends and is asked again, if that can be: which of its opens are lost, and the scan that is asked for.
    fn ask_again(
        &mut self,
        question: PlainQuestion,
        lost: &mut Vec<PlainLoss>,
        scan: &mut String,
    ) -> Result<(), AllocError> {
        let old = question.seq;
        let port = self.least();
        let held = port.is_some()
            && self
                .waiting
                .iter()
                .any(|w| w.question == old && w.rescans < 8);
        self.questions.retain(|q| q.seq != old);
        for open in self.waiting.as_slice() {
            if open.question == old && (!held || open.rescans >= 8) {
                lost.push(PlainLoss {
                    id: open.id,
                    stream: open.stream,
                    cause: if open.rescans >= 8 { 8 } else { 4 },
                })?;
            }
        }
        let next = self.seq.wrapping_add(1);
        self.waiting
            .retain(|w| w.question != old || (held && w.rescans < 8));
        for open in self.waiting.iter_mut() {
            if open.question == old {
                open.question = next;
                open.rescans = open.rescans.wrapping_add(1);
            }
        }
        match port {
            Some(port) if held => self.ask(port, question.stream, scan),
            _ => {
                self.set_known(question.stream, Known::Modified);
                Ok(())
            }
        }
    }

    // Opens that are answered by the mode.
    fn tell(&self, lost: &[PlainLoss], text: &mut String) -> Result<(), AllocError> {
        for open in lost {
            self.unjudged(open.id, open.stream, open.cause, text)?;
        }
        Ok(())
    }

    fn add_some(&self, text: &mut String, part: &str) -> Result<(), AllocError> {
        if part.is_empty() {
            return Ok(());
        }
        self.add(text, part)
    }

    fn cleanup(&mut self, stream: u64, text: &mut String) -> Result<(), AllocError> {
        let Some(found) = self.streams.iter().find(|s| s.id == stream) else {
            return self.add(text, "note NoStream");
        };
        if found.known != Known::Modified || self.questions.len() >= 2 {
            return Ok(());
        }
        match self.least() {
            Some(port) => self.ask(port, stream, text),
            None => Ok(()),
        }
    }

    fn hello(&mut self, port: Port, version: u64, text: &mut String) -> Result<(), AllocError> {
        if self.is_connected(port) {
            return self.add(text, "note Connected");
        }
        if version < self.floor {
            return self.add(text, "note OldVersion");
        }
        self.set_connected(port, true);
        self.floor = version;
        self.add(text, "note Welcome")
    }

    fn read(
        &self,
        port: Port,
        id: MessageId,
        offset: u64,
        count: u32,
        text: &mut String,
    ) -> Result<(), AllocError> {
        let Some(question) = self.question_on(port, id) else {
            return self.no_chunk(port, id, offset, 1, text);
        };
        let Some(found) = self.streams.iter().find(|s| s.id == question.stream) else {
            return self.add(text, "a question of no stream");
        };
        if offset >= found.bytes.len() as u64 {
            return self.no_chunk(port, id, offset, 2, text);
        }
        let MessageId { boot, seq } = id;
        let mut part = format!(in self.alloc; "chunk {boot}.{seq} offset {offset} bytes")?;
        for byte in found
            .bytes
            .iter()
            .skip(offset as usize)
            .take(count as usize)
        {
            part.push_str(format!(in self.alloc; " {byte}")?.as_str())?;
        }
        self.send(port, part.as_str(), text)
    }

    fn no_chunk(
        &self,
        port: Port,
        id: MessageId,
        offset: u64,
        cause: u64,
        text: &mut String,
    ) -> Result<(), AllocError> {
        let MessageId { boot, seq } = id;
        let part = format!(in self.alloc; "nochunk {boot}.{seq} offset {offset} cause {cause}")?;
        self.send(port, part.as_str(), text)
    }

    fn reply(
        &mut self,
        port: Port,
        id: MessageId,
        version: u64,
        infected: bool,
        text: &mut String,
    ) -> Result<(), AllocError> {
        let Some(question) = self.question_on(port, id) else {
            return self.add(text, "note NoWaiter");
        };
        if version < self.floor {
            return self.again(question, false, text);
        }
        self.floor = version;
        let seq = question.seq;
        self.questions.retain(|q| q.seq != seq);
        self.set_known(question.stream, Known::Judged { version, infected });
        for open in self.waiting.as_slice() {
            if open.question == seq {
                self.judged(*open, question.generation, version, infected, text)?;
            }
        }
        self.waiting.retain(|w| w.question != seq);
        Ok(())
    }

    fn fail(&mut self, port: Port, id: MessageId, text: &mut String) -> Result<(), AllocError> {
        let Some(question) = self.question_on(port, id) else {
            return self.add(text, "note NoWaiter");
        };
        self.end_by_mode(question, 7, text)
    }

    fn time_out(&mut self, seq: u64, text: &mut String) -> Result<(), AllocError> {
        let boot = self.boot;
        let Some(question) = self.question_of(MessageId { boot, seq }) else {
            return self.add(text, "note NoWaiter");
        };
        self.end_by_mode(question, 5, text)?;
        self.abort(question, text)
    }

    fn end_by_mode(
        &mut self,
        question: PlainQuestion,
        cause: u64,
        text: &mut String,
    ) -> Result<(), AllocError> {
        let seq = question.seq;
        self.questions.retain(|q| q.seq != seq);
        self.set_known(question.stream, Known::Modified);
        for open in self.waiting.as_slice() {
            if open.question == seq {
                self.unjudged(open.id, open.stream, cause, text)?;
            }
        }
        self.waiting.retain(|w| w.question != seq);
        Ok(())
    }

    fn disconnect(&mut self, port: Port, text: &mut String) -> Result<(), AllocError> {
        self.set_connected(port, false);
        if self.least().is_some() {
            return self.move_questions(port, text);
        }
        for stream in self.streams.iter_mut() {
            if stream.known == Known::Scanning {
                stream.known = Known::Modified;
            }
        }
        self.refuse_all(6, text)
    }

    // The questions of a port are asked again on the other one; the opens that are lost by that are answered in their order.
    fn move_questions(&mut self, port: Port, text: &mut String) -> Result<(), AllocError> {
        let mut moved = Vec::new(self.alloc);
        for question in self.questions.as_slice() {
            if question.port == port {
                moved.push(*question)?;
            }
        }
        let mut lost = Vec::new(self.alloc);
        let mut scans = String::new(self.alloc);
        for question in moved.as_slice() {
            self.ask_again(*question, &mut lost, &mut scans)?;
        }
        lost.sort_unstable_by_key(|loss| loss.id);
        self.tell(lost.as_slice(), text)?;
        self.add_some(text, scans.as_str())
    }

    // Every question ends, and every open is answered by the mode.
    fn refuse_all(&mut self, cause: u64, text: &mut String) -> Result<(), AllocError> {
        for open in self.waiting.as_slice() {
            self.unjudged(open.id, open.stream, cause, text)?;
        }
        self.questions.clear();
        self.waiting.clear();
        Ok(())
    }
}

// Bytes over those from a place on, which is at most the length.
fn overwrite(bytes: &mut Vec<u8>, offset: usize, new: &[u8]) -> Result<(), AllocError> {
    for (i, byte) in new.iter().enumerate() {
        let place = offset.saturating_add(i);
        if place < bytes.len() {
            bytes[place] = *byte;
        } else {
            bytes.push(*byte)?;
        }
    }
    Ok(())
}
