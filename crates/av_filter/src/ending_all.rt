ghost use Rattle.std.specs.Prelude.{◌≡◌, ◌≢◌, Ok, Err, IfErr, IfOk, OnErr};
ghost use Rattle.av_base.specs.Answers.{Reads};
ghost use Rattle.av_filter.specs.Call.{Reacts};
ghost use Rattle.av_filter.specs.Conduct.{restarts};
ghost use Rattle.av_store.specs.Store.{greatest, mount_of};

use crate::out::Out;
use av_base::{Cause, Refusal};
use av_filter_table::FilterTable;
use av_filter_table::answering::{lose_questions, refuse_all};
use av_store::{BootSpent, Volume};
use std::alloc::Global;
use std::mem;

// The filter is mounted anew.
#[tactic(auto, unfolding(crate::specs::Conduct::restarts))]
pub(crate) fn remount(
    table: &mut FilterTable,
    alloc: Global,
    volume: &mut Volume,
) -> Result<Out, Refusal<BootSpent>>
    ensures ok { IfOk result (λ out. Reacts out table.new volume.new (restarts table.old volume.old)) }
    ensures err { OnErr result ((table.new ≡ table.old) × (volume.new ≡ volume.old)) }
    ensures why { IfErr result (λ e. Reads (Err e) (mount_of volume.old)) }
{
    let last = volume.boot();
    if last == u64::MAX {
        return Err(Refusal::Fault(BootSpent));
    }
    let mut answers = Vec::with_capacity(alloc, table.pended_count())?;
    let fresh = FilterTable::new(alloc, table.mode(), table.limits(), last + 1)?;
    refuse_all(table, volume, &mut answers, Cause::FilterRestart);
    lose_questions(table);
    mem::replace(table, fresh).end();
    mount_next(volume);
    Ok(Out::gives(answers, Vec::new(alloc)))
}

// The volume's next boot.
pub(crate) fn mount_next(volume: &mut Volume)
    requires { volume.old.boot ≢ greatest }
    ensures { mount_of volume.old ≡ Ok (volume.new.boot, volume.new) }
{
    match volume.mount() {
        Ok(_boot) => {}
        Err(_) => unreachable!(),
    }
}
