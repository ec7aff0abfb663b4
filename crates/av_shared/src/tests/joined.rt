// The audits of a gate and its desks put together: again and again the next event of any side that is no message, or whose
// message the other side has sent by then.
use av_base::StreamId;
use av_desk::{Audit as DeskAudit, Event as DeskEvent};
use av_frame::Message;
use av_frame::encode::encode_into;
use av_gate::{Audit as GateAudit, Event as GateEvent};
use av_pend::Answer;
use std::alloc::Global;
use std::test::Fail;

// A desk's audit, if there is a desk, and how far it is taken.
#[derive(Drop)]
struct Part<'a> {
    audit: Option<&'a DeskAudit>,
    by: usize,
}

// How far all are taken, and the frames of what each side sent up to there.
#[derive(Drop)]
struct Joining<'a> {
    gate: &'a GateAudit,
    by_gate: usize,
    down: Vec<Vec<u8>>,
    up: Vec<Vec<u8>>,
}

impl Joining<'_> {
    // Takes the gate's next event, where there is one that can come now.
    fn take_of_gate(&mut self, alloc: Global) -> Result<bool, Fail> {
        let Some(entry) = self.gate.events.get(self.by_gate) else {
            return Ok(false);
        };
        if let GateEvent::Receive { message } = entry.event() {
            if !was_sent(alloc, self.up.as_slice(), message)? {
                return Ok(false);
            }
        }
        add_frames(alloc, &mut self.down, entry.messages())?;
        self.by_gate = self.by_gate.saturating_add(1);
        Ok(true)
    }

    // The same of a desk's.
    fn take_of_desk(&mut self, alloc: Global, part: &mut Part<'_>) -> Result<bool, Fail> {
        let Some(audit) = part.audit else {
            return Ok(false);
        };
        let Some(entry) = audit.events.get(part.by) else {
            return Ok(false);
        };
        if let DeskEvent::Receive { message } = entry.event() {
            if !was_sent(alloc, self.down.as_slice(), message)? {
                return Ok(false);
            }
        }
        add_frames(alloc, &mut self.up, entry.messages())?;
        part.by = part.by.saturating_add(1);
        Ok(true)
    }
}

// How many events of the gate's audit, of the desk's and of the spare's are used up.
pub fn joined(
    alloc: Global,
    gate: &GateAudit,
    desk: &DeskAudit,
    spare: Option<&DeskAudit>,
) -> Result<(usize, usize, usize), Fail> {
    let mut joining = Joining {
        gate,
        by_gate: 0,
        down: Vec::new(alloc),
        up: Vec::new(alloc),
    };
    let mut one = Part {
        audit: Some(desk),
        by: 0,
    };
    let mut two = Part {
        audit: spare,
        by: 0,
    };
    let others = match spare {
        None => 0,
        Some(audit) => audit.events.len(),
    };
    let desks = desk.events.len().saturating_add(others);
    for _ in 0..gate.events.len().saturating_add(desks) {
        if !joining.take_of_gate(alloc)?
            && !joining.take_of_desk(alloc, &mut one)?
            && !joining.take_of_desk(alloc, &mut two)?
        {
            break;
        }
    }
    Ok((joining.by_gate, one.by, two.by))
}

fn frame_of(alloc: Global, message: &Message) -> Result<Vec<u8>, Fail> {
    let mut frame = Vec::new(alloc);
    encode_into(message, &mut frame)?;
    Ok(frame)
}

fn was_sent(alloc: Global, sent: &[Vec<u8>], message: &Message) -> Result<bool, Fail> {
    let frame = frame_of(alloc, message)?;
    Ok(
        sent.iter()
            .any(|other| other.as_slice() == frame.as_slice()),
    )
}

fn add_frames(alloc: Global, sent: &mut Vec<Vec<u8>>, messages: &[Message]) -> Result<(), Fail> {
    for message in messages {
        sent.push(frame_of(alloc, message)?)?;
    }
    Ok(())
}

// How many opens of a stream were granted, where each grant was of the generation that the stream had then.
pub fn present_grants(audit: &GateAudit, stream: StreamId) -> Option<usize> {
    let mut generation = audit.volume.generation(stream)?.get();
    let mut count = 0usize;
    for entry in &audit.events {
        if is_write_of(entry.event(), stream) {
            generation = generation.saturating_add(1);
        }
        let granted = granted(entry.answers(), stream, generation)?;
        count = count.saturating_add(granted);
    }
    Some(count)
}

fn is_write_of(event: &GateEvent, of: StreamId) -> bool {
    match event {
        GateEvent::Write { stream, .. } => *stream == of,
        _ => false,
    }
}

// How many of these answers grant the stream; None where one is of another generation.
fn granted(answers: &[Answer], of: StreamId, present: u64) -> Option<usize> {
    let mut count = 0usize;
    for answer in answers {
        if let Answer::Granted {
            stream,
            generation,
            ..
        } = *answer
        {
            if stream == of {
                if generation.get() != present {
                    return None;
                }
                count = count.saturating_add(1);
            }
        }
    }
    Some(count)
}
