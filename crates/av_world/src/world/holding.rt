ghost use Rattle.std.specs.Prelude.{◌≡◌, flat_map, IfOk};
ghost use Rattle.std.specs.Option.{option_map, option_to_list};
ghost use Rattle.av_filter.specs.Verdict.{verdict_of};
ghost use Rattle.av_filter_table.specs.Table.{context_of};
ghost use Rattle.av_history.specs.Held.{asked, asked_by, entry, held, held_contexts, held_reply};

use super::World;
use av_base::{Generation, MessageId, StreamId};
use av_cache::Entry;
use av_filter::Filter;
use av_frame::{Body, Message, Outcome};
use av_store::Volume;
use std::alloc::{AllocError, Global};

impl World {
    /// Every verdict that stands: those of the contexts by stream, those that the filter and then the services keep, most
    /// recent first, and those of all replies, each of the content that its id was first asked about. It looks for that
    /// among all messages down, so it costs replies times messages down.
    pub fn held(&self, alloc: Global) -> Result<Vec<Entry>, AllocError>
        ensures { IfOk result (λ es. es.items ≡ held self.now) }
    {
        let filter = self.stage.filter();
        let mut entries = in_contexts(alloc, filter, self.stage.volume())?;
        let cached = filter.cache().entries(alloc)?;
        entries.extend_from_slice(cached.as_slice())?;
        let cached = self.stage.one.cache().entries(alloc)?;
        entries.extend_from_slice(cached.as_slice())?;
        let cached = self.stage.two.cache().entries(alloc)?;
        entries.extend_from_slice(cached.as_slice())?;
        let replied = in_replies(alloc, self.down(), self.up())?;
        entries.extend_from_slice(replied.as_slice())?;
        Ok(entries)
    }
}

// What the contexts of the streams that are there hold.
fn in_contexts(alloc: Global, filter: &Filter, volume: &Volume) -> Result<Vec<Entry>, AllocError>
    ensures { IfOk result (λ es. es.items ≡ held_contexts filter.now.contexts volume.now.streams) }
{
    let streams = volume.generations(alloc)?;
    streams
        .iter()
        .filter_map(|(stream, generation)| in_context(filter, *stream, *generation))
        .collect(alloc)
}

// What the context of a stream at this generation holds.
fn in_context(filter: &Filter, stream: StreamId, generation: Generation) -> Option<Entry>
    ensures { result ≡ option_map (λ p. entry stream generation p.0 p.1) (verdict_of (context_of filter.now.contexts stream)) }
{
    let (version, verdict) = filter.verdict_at(stream)?;
    Some(Entry {
        stream,
        generation,
        version,
        verdict,
    })
}

// What the replies hold.
fn in_replies(alloc: Global, down: &[Message], up: &[Message]) -> Result<Vec<Entry>, AllocError>
    ensures { IfOk result (λ es. es.items ≡ flat_map (held_reply down.now) up.now) }
{
    up.iter()
        .filter_map(|message| in_reply(down, message))
        .collect(alloc)
}

// What a message holds, if it is a reply.
fn in_reply(down: &[Message], message: &Message) -> Option<Entry>
    ensures { option_to_list result ≡ held_reply down.now message.now }
{
    let Body::Reply { id, outcome } = message.body() else {
        return None;
    };
    let Outcome::Judged { version, verdict } = *outcome else {
        return None;
    };
    let (stream, generation) = asked(down, *id)?;
    Some(Entry {
        stream,
        generation,
        version,
        verdict,
    })
}

// The content that the first scan of an id is about.
fn asked(down: &[Message], id: MessageId) -> Option<(StreamId, Generation)>
    ensures { result ≡ option_map (λ a. (a.stream, a.generation)) (asked down.now id) }
{
    for message in down {
        if let Some(about) = asked_by(message, id) {
            return Some(about);
        }
    }
    None
}

// The content that a message is about, if it is a scan of this id.
fn asked_by(message: &Message, id: MessageId) -> Option<(StreamId, Generation)>
    ensures { result ≡ option_map (λ a. (a.stream, a.generation)) (asked_by id message.now) }
{
    match message.body() {
        Body::Scan {
            id: of,
            stream,
            generation,
            ..
        } if *of == id => Some((*stream, *generation)),
        _ => None,
    }
}
