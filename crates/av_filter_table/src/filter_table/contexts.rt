ghost use Rattle.av_context.specs.Contexts.{set_at};
ghost use Rattle.std.specs.Prelude.{◌≡◌, None, Some, OnOk, OnErr};
ghost use Rattle.std.specs.Option.{option_map};
ghost use Rattle.av_cache.specs.Cache.{look, moved, put, verdict_of};
ghost use Rattle.av_filter_table.specs.Table.{context_of, question_of};

use super::FilterTable;
use av_base::{Generation, StreamId, Verdict, Version};
use av_context::ContextState;
use std::alloc::AllocError;

impl FilterTable {
    /// The state of a stream's context, where it has one. The cost grows with the logarithm of the count of streams.
    pub fn state_of(&self, stream: StreamId) -> Option<ContextState>
        ensures { result ≡ context_of self.now.contexts stream }
    {
        self.contexts.state_of(stream)
    }

    /// Sets the state of the context of a stream that no question runs of; a stream with none gets one, and only that takes
    /// memory. The cost grows with the logarithm of the count of streams. Where memory is refused nothing changes.
    pub fn set_state(&mut self, stream: StreamId, state: ContextState) -> Result<(), AllocError>
        requires { question_of stream self.old.questions ≡ None }
        ensures ok { OnOk result (self.new ≡ record self.old { contexts = set_at self.old.contexts stream (Some state) }) }
        ensures err { OnErr result (self.new ≡ self.old) }
    {
        let context = self.contexts.hold(stream, state)?;
        self.contexts.release(stream, context);
        Ok(())
    }

    /// Lets the context of a stream go that no question runs of, if it has one. The cost grows with the logarithm of the count
    /// of streams. It takes no memory.
    pub fn forget_context(&mut self, stream: StreamId)
        requires { question_of stream self.old.questions ≡ None }
        ensures { self.new ≡ record self.old { contexts = set_at self.old.contexts stream None } }
    {
        self.contexts.detach(stream);
    }

    /// The verdict that the cache has of a content under a version; a hit becomes the most recent. The cost does not depend on
    /// how many there are.
    pub fn look(
        &mut self,
        stream: StreamId,
        generation: Generation,
        version: Version,
    ) -> Option<Verdict>
        ensures verdict { result ≡ option_map verdict_of (look stream generation version self.old.cache) }
        ensures order { self.new
            ≡ record self.old { cache = moved (look stream generation version self.old.cache) self.old.cache } }
    {
        self.cache.look(stream, generation, version)
    }

    /// Keeps the verdict of a content under a version, as the most recent one of the cache. The cost does not depend on how many
    /// there are. Where memory is refused nothing changes.
    pub fn put(
        &mut self,
        stream: StreamId,
        generation: Generation,
        version: Version,
        verdict: Verdict,
    ) -> Result<(), AllocError>
        ensures ok { OnOk result (self.new
            ≡ record self.old {
              cache = put self.old.limits.cache
                  (record { stream = stream; generation = generation; version = version; verdict = verdict }) self.old.cache;
            }) }
        ensures err { OnErr result (self.new ≡ self.old) }
    {
        self.cache.put(stream, generation, version, verdict)
    }
}
