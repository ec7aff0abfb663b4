ghost use Rattle.std.specs.Prelude.{◌≡◌, ◌<◌, ◌+◌, max, IfOk, OnErr, None, Some};
ghost use Rattle.std.specs.Option.{option_map};
ghost use Rattle.av_cache.specs.Cache.{look, verdict_of};
ghost use Rattle.av_filter.specs.Arriving.{IsAnswered, IsArrival};
ghost use Rattle.av_filter.specs.Call.{Reacts};
ghost use Rattle.av_filter.specs.Fit.{Fits};
ghost use Rattle.av_filter.specs.Opening.{opened, taken};
ghost use Rattle.av_filter.specs.Ready.{IsRunning};
ghost use Rattle.av_filter_table.specs.Table.{context_of, current, question_of};
ghost use Rattle.av_pend.specs.Pend.{refused, waiting_from};
ghost use Rattle.av_store.specs.Store.{greatest};

use crate::out::Out;
use crate::running::{asking, has_room, running_of, scan_message};
use av_base::{Cause, Generation, OpenId, StreamId, Verdict, Version};
use av_context::ContextState;
use av_filter_table::answering::judge;
use av_filter_table::{FilterTable, Question};
use av_pend::{Answer, PendedOpen};
use av_store::Volume;
use std::alloc::{AllocError, AllocFailed, Global};

// An open of a stream that is there at this generation, under the volume's next number, and the floor that it finds.
#[derive(Clone, Copy, Debug)]
pub(crate) struct Arrival {
    open_id: OpenId,
    stream: StreamId,
    generation: Generation,
    least: Version,
    floor: Version,
}

impl Arrival {
    // The same as an open that waits.
    fn waiting(&self) -> PendedOpen
        ensures { result ≡ waiting_from self.now.open_id self.now.stream self.now.least }
    {
        PendedOpen::new(self.open_id, self.stream, self.least)
    }
}

// An open comes in, under the volume's next number, which is still to be taken.
pub(crate) fn open(
    table: &mut FilterTable,
    alloc: Global,
    volume: &Volume,
    stream: StreamId,
    least: Version,
) -> Result<Out, AllocError>
    requires fits { Fits table.old volume.now }
    requires left { volume.now.opens < greatest }
    ensures ok { IfOk result (λ out. Reacts out table.new (taken volume.now) (opened table.old volume.now stream least)) }
    ensures err { OnErr result (table.new ≡ table.old) }
{
    let open_id = next_open(volume);
    let Some(generation) = volume.generation(stream) else {
        let answer = PendedOpen::new(open_id, stream, least).deny(Cause::NoStream);
        return answer_at_once(table, alloc, open_id, least, answer);
    };
    let floor = later(table.floor(), least);
    let arrival = Arrival {
        open_id,
        stream,
        generation,
        least,
        floor,
    };
    match verdict_under(table.state_of(stream), floor) {
        Some(verdict) => {
            let answer = judge(arrival.waiting(), generation, floor, verdict);
            answer_at_once(table, alloc, open_id, least, answer)
        }
        None => open_unjudged(table, alloc, volume, &arrival),
    }
}

// An open of a stream of which no verdict under the floor is known: it waits for the question of the stream, or it is
// answered by the cache, or it asks a question.
fn open_unjudged(
    table: &mut FilterTable,
    alloc: Global,
    volume: &Volume,
    arrival: &Arrival,
) -> Result<Out, AllocError>
    requires fits { Fits table.old volume.now }
    requires arrival { IsArrival arrival.now table.old volume.now }
    requires unjudged { current (context_of table.old.contexts arrival.now.stream) arrival.now.floor ≡ None }
    ensures ok { IfOk result
        (λ out. Reacts out table.new (taken volume.now) (opened table.old volume.now arrival.now.stream arrival.now.least)) }
    ensures err { OnErr result (table.new ≡ table.old) }
{
    if let Some(question) = running_of(table, arrival.stream) {
        return join(table, alloc, volume, arrival, &question);
    }
    match table
        .cache()
        .peek(arrival.stream, arrival.generation, arrival.floor)
    {
        Some(verdict) => open_known(table, alloc, volume, arrival, verdict),
        None => open_unknown(table, alloc, volume, arrival),
    }
}

// An open of a stream that is being scanned waits for that scan, where one open more can be held.
fn join(
    table: &mut FilterTable,
    alloc: Global,
    volume: &Volume,
    arrival: &Arrival,
    question: &Question,
) -> Result<Out, AllocError>
    requires fits { Fits table.old volume.now }
    requires arrival { IsArrival arrival.now table.old volume.now }
    requires unjudged { current (context_of table.old.contexts arrival.now.stream) arrival.now.floor ≡ None }
    requires asked { question_of arrival.now.stream table.old.questions ≡ Some question.now }
    requires runs { IsRunning table.old question.now }
    ensures ok { IfOk result
        (λ out. Reacts out table.new (taken volume.now) (opened table.old volume.now arrival.now.stream arrival.now.least)) }
    ensures err { OnErr result (table.new ≡ table.old) }
{
    let _fits = volume.opens_left();
    if !has_room(table) {
        return refuse_at_once(table, alloc, arrival, Cause::Busy);
    }
    if let Err(failed) = table.add_open(question.id.seq, arrival.waiting()) {
        return Err(let_go(failed));
    }
    table.raise(arrival.least);
    Ok(Out::pends(alloc, arrival.open_id))
}

// An open of a stream of whose content the cache has a verdict under the floor.
fn open_known(
    table: &mut FilterTable,
    alloc: Global,
    volume: &Volume,
    arrival: &Arrival,
    verdict: Verdict,
) -> Result<Out, AllocError>
    requires arrival { IsArrival arrival.now table.old volume.now }
    requires unjudged { current (context_of table.old.contexts arrival.now.stream) arrival.now.floor ≡ None }
    requires unasked { question_of arrival.now.stream table.old.questions ≡ None }
    requires hit { Some verdict
        ≡ option_map verdict_of (look arrival.now.stream arrival.now.generation arrival.now.floor table.old.cache) }
    ensures ok { IfOk result
        (λ out. Reacts out table.new (taken volume.now) (opened table.old volume.now arrival.now.stream arrival.now.least)) }
    ensures err { OnErr result (table.new ≡ table.old) }
{
    let _fits = volume.opens_left();
    let mut answers = Vec::with_capacity(alloc, 1)?;
    let known = ContextState::Judged {
        version: arrival.floor,
        verdict,
    };
    table.set_state(arrival.stream, known)?;
    let _hit = table.look(arrival.stream, arrival.generation, arrival.floor);
    table.raise(arrival.least);
    let answer = judge(
        arrival.waiting(),
        arrival.generation,
        arrival.floor,
        verdict,
    );
    answers.push(answer).unwrap();
    Ok(Out::answers(alloc, answers, arrival.open_id))
}

// An open of a stream of which nothing is known: a question is asked, where that can be.
fn open_unknown(
    table: &mut FilterTable,
    alloc: Global,
    volume: &Volume,
    arrival: &Arrival,
) -> Result<Out, AllocError>
    requires fits { Fits table.old volume.now }
    requires arrival { IsArrival arrival.now table.old volume.now }
    requires unjudged { current (context_of table.old.contexts arrival.now.stream) arrival.now.floor ≡ None }
    requires unasked { question_of arrival.now.stream table.old.questions ≡ None }
    requires miss { look arrival.now.stream arrival.now.generation arrival.now.floor table.old.cache ≡ None }
    ensures ok { IfOk result
        (λ out. Reacts out table.new (taken volume.now) (opened table.old volume.now arrival.now.stream arrival.now.least)) }
    ensures err { OnErr result (table.new ≡ table.old) }
{
    if !has_room(table) {
        return refuse_at_once(table, alloc, arrival, Cause::Busy);
    }
    if table.connected().least().is_none() {
        return refuse_at_once(table, alloc, arrival, Cause::NotConnected);
    }
    let Some(port) = asking(table) else {
        return refuse_at_once(table, alloc, arrival, Cause::Busy);
    };
    let _mounted = table.boot();
    let mut messages = Vec::with_capacity(alloc, 1)?;
    match table.ask_for(port, arrival.stream, arrival.generation, arrival.waiting()) {
        Ok(id) => {
            table.raise(arrival.least);
            messages
                .push(scan_message(volume, port, id, arrival.stream))
                .unwrap();
            Ok(Out::asks(alloc, messages, arrival.open_id))
        }
        Err(failed) => Err(let_go(failed)),
    }
}

// An open that is answered at once.
fn answer_at_once(
    table: &mut FilterTable,
    alloc: Global,
    open_id: OpenId,
    least: Version,
    answer: Answer,
) -> Result<Out, AllocError>
    ensures ok { IfOk result (λ out. IsAnswered out table.old table.new open_id least answer) }
    ensures err { OnErr result (table.new ≡ table.old) }
{
    let mut answers = Vec::with_capacity(alloc, 1)?;
    table.raise(least);
    answers.push(answer).unwrap();
    Ok(Out::answers(alloc, answers, open_id))
}

// An open that can't be judged is answered by the mode.
fn refuse_at_once(
    table: &mut FilterTable,
    alloc: Global,
    arrival: &Arrival,
    cause: Cause,
) -> Result<Out, AllocError>
    ensures ok { IfOk result
        (λ out. IsAnswered out table.old table.new arrival.now.open_id arrival.now.least
        (refused table.old.mode arrival.now.generation cause
        (waiting_from arrival.now.open_id arrival.now.stream arrival.now.least))) }
    ensures err { OnErr result (table.new ≡ table.old) }
{
    let answer = arrival
        .waiting()
        .refuse(table.mode(), arrival.generation, cause);
    answer_at_once(table, alloc, arrival.open_id, arrival.least, answer)
}

// An open that could not be held for want of memory is spent, and nobody hears of it.
fn let_go(failed: AllocFailed<PendedOpen>) -> AllocError {
    let AllocFailed { value } = failed;
    let _unheard = value.deny(Cause::Busy);
    AllocError
}

// The number of the next open.
fn next_open(volume: &Volume) -> OpenId
    requires { volume.now.opens < greatest }
    ensures { result ≡ volume.now.opens + 1 }
{
    OpenId::new(volume.opens() + 1)
}

// The later of two versions.
fn later(a: Version, b: Version) -> Version
    ensures { result ≡ max a b }
{
    if a.get() < b.get() { b } else { a }
}

// The verdict of a context under this version.
fn verdict_under(context: Option<ContextState>, floor: Version) -> Option<Verdict>
    ensures { result ≡ current context floor }
{
    let state = context?;
    let ContextState::Judged { version, verdict } = state else {
        return None;
    };
    if version.get() != floor.get() {
        return None;
    }
    Some(verdict)
}

// Takes the number of an open.
pub(crate) fn take_number(volume: &mut Volume)
    requires { volume.old.opens < greatest }
    ensures { volume.new ≡ taken volume.old }
{
    match volume.take_open_number() {
        Ok(_open_id) => {}
        Err(_) => unreachable!(),
    }
}
