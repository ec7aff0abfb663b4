//! One client: it is heard and told until it is done.

ghost use Rattle.std.specs.Prelude.{◌≡◌, IfOk};
ghost use Rattle.av_clamd.specs.Text.{reply_of};

use crate::files::{Named, answer_path};
use crate::judging::answer_of;
use crate::line::{ClientConnection, Lost, PIECE};
use crate::opening::{Opens, Place};
use crate::streamed::Streamed;
use crate::verdict::spoken_of_stream;
use av_clamd::{Door, Heard, Sending, Spoken, put_reply, put_timed_out};
use av_client::{Asker, AskingFault, Reply};
use std::alloc::{AllocError, Global};
use std::io::Read;
use std::os::unix::net::UnixStream;
use std::time::Duration;

// What a client asks for, once that is whole.
#[derive(Drop)]
enum Wish {
    Say(Vec<u8>),
    Judge {
        number: u64,
        end: u8,
        content: Vec<u8>,
    },
    Stream {
        number: u64,
        end: u8,
        first: Vec<u8>,
    },
    Open {
        number: u64,
        end: u8,
        is_many: bool,
        path: Vec<u8>,
    },
}

/// Serves a client until it is done, or is to be left.
pub(crate) fn serve_client<R: Opens>(place: &Place<'_, R>, stream: UnixStream) {
    let wait = Duration::from_secs(place.asked.wait);
    let Ok(mut line) = ClientConnection::new(place.system, place.alloc, stream, wait) else {
        return;
    };
    let mut door = Door::with_paths(place.alloc);
    if let Err(Lost::Late) = serve(place, &mut line, &mut door) {
        let mut text = Vec::new(place.alloc);
        if put_timed_out(&mut text, door.end()).is_ok() {
            let _ = line.say(&text);
        }
    }
}

fn serve<R: Opens>(
    place: &Place<'_, R>,
    line: &mut ClientConnection<'_, R>,
    door: &mut Door,
) -> Result<(), Lost> {
    'wishes: for _ in 0..u64::MAX {
        if door.is_done() {
            break;
        }
        match next_wish(line, door)? {
            Some(wish) => fulfil(place, line, door, wish)?,
            None => break,
        }
    }
    Ok(())
}

// What the client asks for next. What has begun of it is whole within the wait. None where it asks for nothing more.
fn next_wish<R: Opens>(
    line: &mut ClientConnection<'_, R>,
    door: &mut Door,
) -> Result<Option<Wish>, Lost> {
    let mut until = line.until()?;
    'pieces: for _ in 0..u64::MAX {
        if door.is_done() {
            return Ok(None);
        }
        line.hear(until)?;
        if door.begun().is_none() {
            until = line.until()?;
        }
        let (taken, heard) = door.hear(line.rest(), Sending::InParts)?;
        let wish = match heard {
            None => None,
            Some(heard) => Some(wish_of(heard)?),
        };
        line.take(taken);
        if wish.is_some() {
            return Ok(wish);
        }
    }
    Err(Lost::Gone)
}

fn wish_of(heard: Heard<'_>) -> Result<Wish, Lost> {
    match heard {
        Heard::Say(text) => Ok(Wish::Say(text)),
        Heard::Ask {
            number,
            end,
            content,
        } => Ok(Wish::Judge {
            number,
            end,
            content,
        }),
        Heard::Begin { number, end, first } => Ok(Wish::Stream { number, end, first }),
        Heard::Path {
            number,
            end,
            is_many,
            path,
        } => Ok(Wish::Open {
            number,
            end,
            is_many,
            path,
        }),
        Heard::More(_) | Heard::End => Err(Lost::Gone),
    }
}

fn fulfil<R: Opens>(
    place: &Place<'_, R>,
    line: &mut ClientConnection<'_, R>,
    door: &mut Door,
    wish: Wish,
) -> Result<(), Lost> {
    match wish {
        Wish::Say(text) => line.say(&text),
        Wish::Judge {
            number,
            end,
            content,
        } => {
            let spoken = spoken_of_stream(ask_small(place, &content));
            say_stream(place, line, (number, end), &spoken)
        }
        Wish::Stream { number, end, first } => {
            let (asked, is_over) = ask_stream(place, line, door, first);
            let is_early = asked.is_ok() && !is_over;
            say_stream(place, line, (number, end), &spoken_of_stream(asked))?;
            if is_over {
                return Ok(());
            }
            if is_early {
                return pass_over(place, line, door);
            }
            Err(Lost::Gone)
        }
        Wish::Open {
            number,
            end,
            is_many,
            path,
        } => {
            let path = path.as_slice();
            answer_path(
                place,
                line,
                Named {
                    number,
                    end,
                    is_many,
                    path,
                },
            )
        }
    }
}

// Asks about a content that is whole.
fn ask_small<R: Opens>(place: &Place<'_, R>, content: &[u8]) -> Result<Reply, AskingFault> {
    let Ok(mut asker) = Asker::connect(place.system, place.alloc, place.meeting()) else {
        return Err(AskingFault::Lost);
    };
    asker.ask("stream", content)?;
    answer_of(&mut asker)
}

// Asks about a content that comes in parts. Whether it came to its end.
fn ask_stream<R: Opens>(
    place: &Place<'_, R>,
    line: &mut ClientConnection<'_, R>,
    door: &mut Door,
    first: Vec<u8>,
) -> (Result<Reply, AskingFault>, bool) {
    let Ok(mut asker) = Asker::connect(place.system, place.alloc, place.meeting()) else {
        return (Err(AskingFault::Lost), false);
    };
    let mut content = Streamed::new(line, door, first);
    let asked = match asker.ask_in_parts("stream", &mut content) {
        Ok(()) => answer_of(&mut asker),
        Err(fault) => Err(fault),
    };
    (asked, content.is_over())
}

// Reads what follows of a content that has its answer already, as long as one wait.
fn pass_over<R: Opens>(
    place: &Place<'_, R>,
    line: &mut ClientConnection<'_, R>,
    door: &mut Door,
) -> Result<(), Lost> {
    let mut buffer = vec![in place.alloc; 0u8; PIECE]?;
    let until = line.until()?;
    let mut content = Streamed::new(line, door, Vec::new(place.alloc));
    'pieces: for _ in 0..u64::MAX {
        match content.read(&mut buffer) {
            Ok(0) => return Ok(()),
            Ok(_) if is_before(place, until) => {}
            _ => break,
        }
    }
    Err(Lost::Gone)
}

// Whether a moment has not come.
fn is_before<R: Opens>(place: &Place<'_, R>, moment: Duration) -> bool {
    match place.system.monotonic() {
        Ok(now) => now.as_nanos() < moment.as_nanos(),
        Err(_) => false,
    }
}

fn say_stream<R: Opens>(
    place: &Place<'_, R>,
    line: &ClientConnection<'_, R>,
    command: (u64, u8),
    spoken: &Spoken<'_>,
) -> Result<(), Lost> {
    let text = stream_text(place.alloc, command, spoken)?;
    line.say(&text)
}

// The reply to a content.
fn stream_text(
    alloc: Global,
    command: (u64, u8),
    spoken: &Spoken<'_>,
) -> Result<Vec<u8>, AllocError>
    ensures { IfOk result (λ text. text.items ≡ reply_of command.0 command.1 spoken.now) }
{
    let (number, end) = command;
    let mut text = Vec::new(alloc);
    put_reply(&mut text, number, end, spoken)?;
    Ok(text)
}
