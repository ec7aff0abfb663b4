ghost use Rattle.std.specs.Prelude.{◌≡◌, ◌<◌, None, Some, Ok, OnOk, OnErr};
ghost use Rattle.av_context.specs.Contexts.{set_at};
ghost use Rattle.av_context.specs.declared.context_state.ContextState.TheVariants.{Modified};
ghost use Rattle.av_filter_table.specs.Rewriting.{change_by};
ghost use Rattle.av_filter_table.specs.Table.{question_of};
ghost use Rattle.std.specs.Result.{result_err};
ghost use Rattle.av_store.specs.Seen.{change_of};

use super::FilterTable;
use crate::rewriting::Rewriting;
use av_base::StreamId;
use av_context::ContextState;
use av_store::Volume;
use std::alloc::AllocError;

impl FilterTable {
    /// Changes the bytes of a stream that no question runs of, and its context is Modified from then on. Where memory is
    /// refused nothing changes, neither here nor in the volume.
    pub fn modify(
        &mut self,
        volume: &mut Volume,
        stream: StreamId,
        rewriting: Rewriting<'_>,
    ) -> Result<(), AllocError>
        requires none { question_of stream self.old.questions ≡ None }
        requires accepted { result_err (change_of volume.old (change_by stream rewriting)) ≡ None }
        ensures ok { OnOk result (self.new ≡ record self.old { contexts = set_at self.old.contexts stream (Some Modified) }) }
        ensures volume { OnOk result (change_of volume.old (change_by stream rewriting.entry) ≡ Ok volume.new) }
        ensures err { OnErr result ((self.new ≡ self.old) × (volume.new ≡ volume.old)) }
    {
        let old = self.contexts.state_of(stream);
        let context = self.contexts.hold(stream, ContextState::Modified)?;
        match rewriting.apply(volume, stream) {
            Ok(()) => {
                self.contexts.release(stream, context);
                Ok(())
            }
            Err(_) => {
                self.contexts.undo_hold(stream, context, old);
                Err(AllocError)
            }
        }
    }
}
