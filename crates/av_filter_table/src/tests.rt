mod ports;

ghost use Rattle.std.specs.Prelude.{◌≡◌, ◌<◌, ◌++◌, ◌∷◌, [], IsSome, length};
ghost use Rattle.std.specs.List.{AllByRecursion};
ghost use Rattle.av_filter_table.specs.Answering.{MayJudge};
ghost use Rattle.av_filter_table.specs.FilterTable.{id_of, open_numbers};
ghost use Rattle.av_filter_table.specs.Table.{question_at};

use crate::{FilterTable, Ports, Question, answering};
use av_base::{
    Cause, Generation, LimitField, LimitValues, Limits, MessageId, Mode, OpenId, Port, StreamId,
    Verdict, Version,
};
use av_context::ContextState;
use av_pend::{Again, Answer, PendedOpen};
use av_store::Volume;
use std::alloc::Global;
use std::process::Abort;
use std::test::Fail;

// Calls with memory, on tables in their first boot.

fn mounted(rt: &impl Abort, alloc: Global, mode: Mode, limits: Limits) -> FilterTable
    ensures { result.pended ≡ [] }
{
    match FilterTable::new(alloc, mode, limits, 1) {
        Ok(table) => table,
        Err(_) => panic!(rt; "no memory"),
    }
}

// An open that any version may judge, and that has seen so many rescans.
fn waiting(rt: &impl Abort, number: u64, stream: u64, rescans: u8) -> PendedOpen
    ensures number { result.open_id ≡ number }
    ensures least { result.least ≡ 0 }
{
    let mut held = PendedOpen::new(OpenId::new(number), StreamId::new(stream), Version::new(0));
    'rescans: for _ in 0..rescans {
        held = once_more(rt, held);
    }
    held
}

fn once_more(rt: &impl Abort, held: PendedOpen) -> PendedOpen
    ensures number { result.open_id ≡ held.open_id }
    ensures least { result.least ≡ held.least }
{
    match held.again() {
        Again::Held(held) => held,
        Again::Spent(_held) => panic!(rt; "it saw as many rescans as it may"),
    }
}

fn assert_runs(rt: &impl Abort, table: &FilterTable, question: u64)
    ensures { IsSome (question_at (id_of table.now.boot question) table.now.questions) }
{
    let id = MessageId {
        boot: table.boot(),
        seq: question,
    };
    assert!(rt; table.question_at(id).is_some());
}

fn assert_none_waits(rt: &impl Abort, table: &FilterTable)
    ensures { table.now.pended ≡ [] }
{
    assert!(rt; table.pended_count() == 0);
}

fn assert_none_runs(rt: &impl Abort, table: &FilterTable)
    ensures { table.now.questions ≡ [] }
{
    assert!(rt; table.question_count() == 0);
}

// One question more may run.
fn assert_has_room(rt: &impl Abort, table: &FilterTable)
    ensures { length table.now.questions < table.now.limits.questions }
{
    let limits = table.limits().values();
    assert!(rt; (table.question_count() as u64) < limits.questions);
}

fn ask(rt: &impl Abort, table: &mut FilterTable, stream: u64) -> u64 {
    ask_on(rt, table, Port::One, stream)
}

fn ask_on(rt: &impl Abort, table: &mut FilterTable, port: Port, stream: u64) -> u64 {
    let stream = StreamId::new(stream);
    assert!(rt; table.question_of(stream).is_none());
    assert!(rt; table.sequence() < 10_000);
    assert_has_room(rt, table);
    match table.ask(port, stream, Generation::new(1)) {
        Ok(id) => id.seq,
        Err(_) => panic!(rt; "no memory"),
    }
}

// Holds an open under the question of its stream, which is asked where none runs.
fn hold(rt: &impl Abort, table: &mut FilterTable, number: u64, stream: u64, rescans: u8)
    requires { AllByRecursion (λ n. n < number) (open_numbers table.old.pended) }
    ensures numbers { open_numbers table.new.pended ≡ open_numbers table.old.pended ++ number ∷ [] }
    ensures leasts { MayJudge 0 table.old.pended → MayJudge 0 table.new.pended }
{
    let held = waiting(rt, number, stream, rescans);
    match table.question_of(StreamId::new(stream)) {
        Some(question) => add_open(rt, table, question.id.seq, held),
        None => ask_for(rt, table, StreamId::new(stream), held),
    }
}

fn add_open(rt: &impl Abort, table: &mut FilterTable, question: u64, held: PendedOpen)
    requires { AllByRecursion (λ n. n < held.open_id) (open_numbers table.old.pended) }
    ensures numbers { open_numbers table.new.pended ≡ open_numbers table.old.pended ++ held.open_id ∷ [] }
    ensures leasts { held.least ≡ 0 → MayJudge 0 table.old.pended → MayJudge 0 table.new.pended }
{
    assert_runs(rt, table, question);
    match table.add_open(question, held) {
        Ok(()) => {}
        Err(_) => panic!(rt; "no memory"),
    }
}

fn ask_for(rt: &impl Abort, table: &mut FilterTable, stream: StreamId, held: PendedOpen)
    requires { AllByRecursion (λ n. n < held.open_id) (open_numbers table.old.pended) }
    ensures numbers { open_numbers table.new.pended ≡ open_numbers table.old.pended ++ held.open_id ∷ [] }
    ensures leasts { held.least ≡ 0 → MayJudge 0 table.old.pended → MayJudge 0 table.new.pended }
{
    assert!(rt; table.question_of(stream).is_none());
    assert!(rt; table.sequence() < 100);
    assert_has_room(rt, table);
    match table.ask_for(Port::One, stream, Generation::new(1), held) {
        Ok(_) => {}
        Err(_) => panic!(rt; "no memory"),
    }
}

// Holds opens of these streams and rescans, under the numbers from 1 on.
fn hold_each(rt: &impl Abort, table: &mut FilterTable, opens: &[(u64, u8)])
    requires { table.old.pended ≡ [] }
    ensures { MayJudge 0 table.new.pended }
{
    let mut last = 0;
    'opens: for (stream, rescans) in opens {
        assert!(rt; last < 100);
        hold(rt, table, last + 1, *stream, *rescans);
        last += 1;
    }
}

// The number of the first of all opens, which is denied.
fn pop_number(table: &mut FilterTable) -> Option<u64> {
    let held = table.pop_open()?;
    let number = held.open_id().get();
    let _ = held.deny(Cause::TimedOut);
    Some(number)
}

// The number and the rescans of the first open of a question, which is denied.
fn take(rt: &impl Abort, table: &mut FilterTable, question: u64) -> Option<(u64, u8)> {
    assert_runs(rt, table, question);
    let held = table.take_open(question)?;
    let seen = (held.open_id().get(), held.rescans());
    let _ = held.deny(Cause::TimedOut);
    Some(seen)
}

fn lose(rt: &impl Abort, table: &mut FilterTable) {
    assert_none_waits(rt, table);
    answering::lose_questions(table);
}

fn end(rt: &impl Abort, table: FilterTable) {
    assert_none_waits(rt, &table);
    assert_none_runs(rt, &table);
    table.end();
}

fn assert_state(rt: &impl Abort, table: &FilterTable, stream: u64, state: Option<ContextState>) {
    assert!(rt; table.state_of(StreamId::new(stream)) == state);
}

// Questions, opens, contexts.
fn assert_counts(rt: &impl Abort, table: &FilterTable, counts: (usize, usize, usize)) {
    assert!(rt; table.question_count() == counts.0);
    assert!(rt; table.pended_count() == counts.1);
    assert!(rt; table.context_count() == counts.2);
}

// The opens that are left come out by these numbers, and then none.
fn assert_pops(rt: &impl Abort, table: &mut FilterTable, numbers: &[u64]) {
    for number in numbers {
        assert!(rt; pop_number(table) == Some(*number));
    }
    assert!(rt; pop_number(table).is_none());
}

// The opens of a question come out by these numbers and rescans, and then none.
fn assert_takes(rt: &impl Abort, table: &mut FilterTable, question: u64, seen: &[(u64, u8)]) {
    for each in seen {
        assert!(rt; take(rt, table, question) == Some(*each));
    }
    assert!(rt; take(rt, table, question).is_none());
}

fn assert_answers(rt: &impl Abort, answers: &[Answer], wanted: &[Answer]) {
    assert!(rt; answers == wanted);
}

fn assert_question(rt: &impl Abort, table: &FilterTable, boot: u64, seq: u64, stream: Option<u64>) {
    let id = MessageId { boot, seq };
    assert!(rt; table.question_at(id).map(|q| q.stream.get()) == stream);
}

#[test]
fn opens_of_several_streams_come_out_in_the_order_of_their_numbers(
    rt: HostRuntime,
) -> Result<(), Fail> {
    let mut table = mounted(&rt, rt.alloc(), Mode::FailClosed, Limits::greatest());
    hold_each(&rt, &mut table, &[(7, 0), (8, 0), (7, 0)]);
    assert_counts(&rt, &table, (2, 3, 2));
    assert_pops(&rt, &mut table, &[1, 2, 3]);
    lose(&rt, &mut table);
    assert_state(&rt, &table, 7, Some(ContextState::Modified));
    assert_state(&rt, &table, 8, Some(ContextState::Modified));
    assert_counts(&rt, &table, (0, 0, 2));
    end(&rt, table);
    Ok(())
}

// A volume of one stream, 1, at generation 1.
fn volume_of_one(rt: &impl Abort, alloc: Global) -> Volume {
    let mut volume = Volume::new(alloc, 1, Limits::greatest());
    if volume.create(alloc, b"a").is_err() {
        panic!(rt; "refused");
    }
    volume
}

fn room(rt: &impl Abort, alloc: Global) -> Vec<Answer> {
    match Vec::with_capacity(alloc, 8) {
        Ok(answers) => answers,
        Err(_) => panic!(rt; "no memory"),
    }
}

fn denied(number: u64, cause: Cause) -> Answer {
    Answer::Denied {
        open_id: OpenId::new(number),
        cause,
    }
}

fn granted(number: u64, stream: u64, version: u64) -> Answer {
    Answer::Granted {
        open_id: OpenId::new(number),
        least: Version::new(0),
        stream: StreamId::new(stream),
        generation: Generation::new(1),
        version: Version::new(version),
    }
}

fn unscanned(number: u64, stream: u64, generation: u64, cause: Cause) -> Answer {
    Answer::Unscanned {
        open_id: OpenId::new(number),
        stream: StreamId::new(stream),
        generation: Generation::new(generation),
        cause,
    }
}

fn ask_again(
    rt: &impl Abort,
    table: &mut FilterTable,
    volume: &Volume,
    question: u64,
    answers: &mut Vec<Answer>,
) -> u64 {
    ask_again_on(rt, table, volume, Port::One, question, answers)
}

fn ask_again_on(
    rt: &impl Abort,
    table: &mut FilterTable,
    volume: &Volume,
    port: Port,
    question: u64,
    answers: &mut Vec<Answer>,
) -> u64 {
    assert_runs(rt, table, question);
    assert!(rt; table.sequence() < 10_000);
    assert!(rt; table.opens_of(question) < 100);
    assert!(rt; answers.len() + table.opens_of(question) <= answers.capacity());
    table.ask_again(volume, port, question, answers).seq
}

fn assert_rescan_left(rt: &impl Abort, table: &FilterTable, question: u64, is_left: bool) {
    assert_runs(rt, table, question);
    assert!(rt; table.has_rescan_left(question) == is_left);
}

#[test]
fn asking_again_moves_opens_with_a_rescan_left_and_answers_the_others(
    rt: HostRuntime,
) -> Result<(), Fail> {
    let volume = volume_of_one(&rt, rt.alloc());
    let mut answers = room(&rt, rt.alloc());
    let mut table = mounted(&rt, rt.alloc(), Mode::FailOpen, Limits::greatest());
    hold_each(&rt, &mut table, &[(1, 8), (1, 0), (2, 0), (1, 8), (1, 7)]);
    assert_rescan_left(&rt, &table, 1, true);
    let next = ask_again(&rt, &mut table, &volume, 1, &mut answers);
    assert_eq!(rt; next, 3);
    let lost = [
        unscanned(1, 1, 1, Cause::Unsettled),
        unscanned(4, 1, 1, Cause::Unsettled),
    ];
    assert_answers(&rt, &answers, &lost);
    let id = MessageId { boot: 1, seq: 3 };
    assert_state(&rt, &table, 1, Some(ContextState::Scanning(id)));
    assert_question(&rt, &table, 1, 1, None);
    assert_first_and_others(&rt, &mut table);
    answering::abandon(table);
    Ok(())
}

fn assert_first_and_others(rt: &impl Abort, table: &mut FilterTable) {
    assert!(rt; take(rt, table, 3) == Some((2, 1)));
    assert_rescan_left(rt, table, 3, false);
    assert_takes(rt, table, 3, &[(5, 8)]);
    assert_takes(rt, table, 2, &[(3, 0)]);
}

fn end_question(rt: &impl Abort, table: &mut FilterTable, question: u64, state: ContextState) {
    assert_runs(rt, table, question);
    assert!(rt; table.opens_of(question) == 0);
    table.end_question(question, state);
}

fn end_removed(rt: &impl Abort, table: &mut FilterTable, question: u64) {
    assert_runs(rt, table, question);
    assert!(rt; table.opens_of(question) == 0);
    table.end_removed(question);
}

// The question that runs of a stream is this one, of its generation 1.
fn assert_runs_of(rt: &impl Abort, table: &FilterTable, stream: u64, id: Option<MessageId>) {
    let stream = StreamId::new(stream);
    let generation = Generation::new(1);
    let wanted = id.map(|id| Question {
        id,
        port: Port::One,
        stream,
        generation,
    });
    assert!(rt; table.question_of(stream) == wanted);
}

#[test]
fn a_question_that_no_open_waits_for_is_asked_and_ends(rt: HostRuntime) -> Result<(), Fail> {
    let mut table = mounted(&rt, rt.alloc(), Mode::FailClosed, Limits::greatest());
    let first = MessageId { boot: 1, seq: 1 };
    assert_eq!(rt; ask(&rt, &mut table, 7), 1);
    assert_eq!(rt; table.sequence(), 1);
    assert_runs_of(&rt, &table, 7, Some(first));
    assert_runs_of(&rt, &table, 8, None);
    assert_question(&rt, &table, 1, 1, Some(7));
    assert_question(&rt, &table, 2, 1, None);
    assert_state(&rt, &table, 7, Some(ContextState::Scanning(first)));
    end_question(&rt, &mut table, 1, ContextState::Modified);
    assert_runs_of(&rt, &table, 7, None);
    assert_state(&rt, &table, 7, Some(ContextState::Modified));
    assert_eq!(rt; ask(&rt, &mut table, 7), 2);
    end_removed(&rt, &mut table, 2);
    assert_state(&rt, &table, 7, None);
    assert_counts(&rt, &table, (0, 0, 0));
    end(&rt, table);
    Ok(())
}

fn set_state(rt: &impl Abort, table: &mut FilterTable, stream: u64, state: ContextState) {
    let stream = StreamId::new(stream);
    assert!(rt; table.question_of(stream).is_none());
    if table.set_state(stream, state).is_err() {
        panic!(rt; "no memory");
    }
}

fn forget_context(rt: &impl Abort, table: &mut FilterTable, stream: u64) {
    let stream = StreamId::new(stream);
    assert!(rt; table.question_of(stream).is_none());
    table.forget_context(stream);
}

fn judged(version: u64, verdict: Verdict) -> ContextState {
    ContextState::Judged {
        version: Version::new(version),
        verdict,
    }
}

#[test]
fn a_stream_has_a_context_from_its_first_state_until_it_is_forgotten(
    rt: HostRuntime,
) -> Result<(), Fail> {
    let mut table = mounted(&rt, rt.alloc(), Mode::FailClosed, Limits::greatest());
    forget_context(&rt, &mut table, 7);
    set_state(&rt, &mut table, 7, ContextState::Modified);
    set_state(&rt, &mut table, 7, judged(3, Verdict::Clean));
    set_state(&rt, &mut table, 5, ContextState::Modified);
    assert_state(&rt, &table, 7, Some(judged(3, Verdict::Clean)));
    assert_counts(&rt, &table, (0, 0, 2));
    forget_context(&rt, &mut table, 7);
    assert_state(&rt, &table, 7, None);
    assert_state(&rt, &table, 5, Some(ContextState::Modified));
    assert_counts(&rt, &table, (0, 0, 1));
    end(&rt, table);
    Ok(())
}

fn put(rt: &impl Abort, table: &mut FilterTable, stream: u64, verdict: Verdict) {
    if table
        .put(
            StreamId::new(stream),
            Generation::new(1),
            Version::new(2),
            verdict,
        )
        .is_err()
    {
        panic!(rt; "no memory");
    }
}

fn assert_kept(
    rt: &impl Abort,
    table: &mut FilterTable,
    stream: u64,
    version: u64,
    verdict: Option<Verdict>,
) {
    let found = table.look(
        StreamId::new(stream),
        Generation::new(1),
        Version::new(version),
    );
    assert!(rt; found == verdict);
}

#[test]
fn a_table_keeps_as_many_verdicts_as_its_limits_say(rt: HostRuntime) -> Result<(), Fail> {
    let Ok(limits) = Limits::check(LimitValues::greatest().with(LimitField::Cache, 2)) else {
        panic!(rt; "refused");
    };
    let mut table = mounted(&rt, rt.alloc(), Mode::FailClosed, limits);
    put(&rt, &mut table, 7, infected());
    put(&rt, &mut table, 8, Verdict::Clean);
    assert_kept(&rt, &mut table, 7, 1, None);
    assert_kept(&rt, &mut table, 7, 2, Some(infected()));
    put(&rt, &mut table, 9, Verdict::Clean);
    assert_kept(&rt, &mut table, 8, 2, None);
    assert_kept(&rt, &mut table, 7, 2, Some(infected()));
    assert_eq!(rt; table.cache().len(), 2);
    assert_eq!(rt; table.cache().capacity(), 2);
    assert_eq!(rt; table.limits(), limits);
    end(&rt, table);
    Ok(())
}

fn settle(
    rt: &impl Abort,
    alloc: Global,
    table: &mut FilterTable,
    question: u64,
    version: u64,
    verdict: Verdict,
) -> Vec<Answer>
    requires { MayJudge 0 table.old.pended }
{
    assert_runs(rt, table, question);
    let version = Version::new(version);
    assert!(rt; table.floor().get() <= version.get());
    match answering::settle_question(table, alloc, question, version, verdict) {
        Ok(answers) => answers,
        Err(_) => panic!(rt; "no memory"),
    }
}

// A question of two opens of three, which ends with this verdict.
fn settle_one(rt: &impl Abort, alloc: Global, verdict: Verdict, answers: &[Answer]) {
    let mut table = mounted(rt, alloc, Mode::FailOpen, Limits::greatest());
    hold_each(rt, &mut table, &[(7, 0), (8, 0), (7, 8)]);
    let given = settle(rt, alloc, &mut table, 1, 5, verdict);
    assert_answers(rt, &given, answers);
    assert_state(rt, &table, 7, Some(judged(5, verdict)));
    assert_kept(rt, &mut table, 7, 5, Some(verdict));
    assert!(rt; table.floor() == Version::new(5));
    assert_counts(rt, &table, (1, 1, 2));
    assert_pops(rt, &mut table, &[2]);
    answering::abandon(table);
}

fn infected() -> Verdict {
    Verdict::Infected {
        index: 4,
        end_at: 9,
    }
}

#[test]
fn a_verdict_answers_each_open_of_its_question_and_is_kept(rt: HostRuntime) -> Result<(), Fail> {
    let alloc = rt.alloc();
    settle_one(
        &rt,
        alloc,
        Verdict::Clean,
        &[granted(1, 7, 5), granted(3, 7, 5)],
    );
    settle_one(
        &rt,
        alloc,
        infected(),
        &[denied(1, Cause::Infected), denied(3, Cause::Infected)],
    );
    Ok(())
}

fn refuse(
    rt: &impl Abort,
    alloc: Global,
    table: &mut FilterTable,
    volume: &Volume,
    question: u64,
) -> Vec<Answer> {
    assert_runs(rt, table, question);
    match answering::refuse_question(
        table,
        alloc,
        volume,
        question,
        Cause::TimedOut,
        ContextState::Modified,
    ) {
        Ok(answers) => answers,
        Err(_) => panic!(rt; "no memory"),
    }
}

// A question of two opens of three, on a stream of a volume of one, whose time is up: what its opens are answered.
fn time_out_one(
    rt: &impl Abort,
    alloc: Global,
    volume: &Volume,
    mode: Mode,
    stream: u64,
    answers: &[Answer],
) {
    let mut table = mounted(rt, alloc, mode, Limits::greatest());
    hold_each(rt, &mut table, &[(stream, 0), (9, 0), (stream, 1)]);
    let given = refuse(rt, alloc, &mut table, volume, 1);
    assert_answers(rt, &given, answers);
    assert_state(rt, &table, stream, Some(ContextState::Modified));
    assert!(rt; table.mode() == mode);
    assert_pops(rt, &mut table, &[2]);
    answering::abandon(table);
}

#[test]
fn a_question_that_cannot_be_judged_answers_its_opens_by_the_mode(
    rt: HostRuntime,
) -> Result<(), Fail> {
    let alloc = rt.alloc();
    let volume = volume_of_one(&rt, alloc);
    let cause = Cause::TimedOut;
    let closed = [denied(1, cause), denied(3, cause)];
    time_out_one(&rt, alloc, &volume, Mode::FailClosed, 1, &closed);
    let open = [unscanned(1, 1, 1, cause), unscanned(3, 1, 1, cause)];
    time_out_one(&rt, alloc, &volume, Mode::FailOpen, 1, &open);
    let gone = [unscanned(1, 7, 0, cause), unscanned(3, 7, 0, cause)];
    time_out_one(&rt, alloc, &volume, Mode::FailOpen, 7, &gone);
    Ok(())
}

fn refuse_all(
    rt: &impl Abort,
    table: &mut FilterTable,
    volume: &Volume,
    answers: &mut Vec<Answer>,
) {
    assert!(rt; table.pended_count() < 100);
    assert!(rt; answers.len() + table.pended_count() <= answers.capacity());
    answering::refuse_all(table, volume, answers, Cause::FilterRestart);
}

#[test]
fn a_table_that_is_mounted_again_has_nothing_of_the_one_before(
    rt: HostRuntime,
) -> Result<(), Fail> {
    let volume = volume_of_one(&rt, rt.alloc());
    let mut answers = room(&rt, rt.alloc());
    let mut table = mounted(&rt, rt.alloc(), Mode::FailClosed, Limits::greatest());
    hold_each(&rt, &mut table, &[(7, 0), (8, 0), (7, 0)]);
    raise(&rt, &mut table);
    refuse_all(&rt, &mut table, &volume, &mut answers);
    let cause = Cause::FilterRestart;
    let wanted = [denied(1, cause), denied(2, cause), denied(3, cause)];
    assert_answers(&rt, &answers, &wanted);
    lose(&rt, &mut table);
    // Each reference came back: with its stream's attachment a context is gone.
    forget_context(&rt, &mut table, 7);
    forget_context(&rt, &mut table, 8);
    assert_counts(&rt, &table, (0, 0, 0));
    let next = mounted_again(&rt, rt.alloc(), table);
    assert_as_mounted(&rt, &next);
    end(&rt, next);
    Ok(())
}

fn raise(rt: &impl Abort, table: &mut FilterTable) {
    let both = Ports {
        one: true,
        two: true,
    };
    table.set_connected(both);
    table.raise(Version::new(3));
    table.raise(Version::new(2));
    assert!(rt; table.floor() == Version::new(3));
    assert!(rt; table.connected() == both);
}

// Ends a table, and gives the one of the next boot.
fn mounted_again(rt: &impl Abort, alloc: Global, table: FilterTable) -> FilterTable {
    let (mode, limits, boot) = (table.mode(), table.limits(), table.boot());
    assert!(rt; boot < 100);
    end(rt, table);
    match FilterTable::new(alloc, mode, limits, boot + 1) {
        Ok(next) => next,
        Err(_) => panic!(rt; "no memory"),
    }
}

fn assert_as_mounted(rt: &impl Abort, table: &FilterTable) {
    assert!(rt; table.boot() == 2);
    assert!(rt; table.sequence() == 0);
    assert!(rt; table.floor() == Version::new(0));
    assert!(rt; table.connected() == Ports::none());
    assert!(rt; table.cache().len() == 0);
    assert_counts(rt, table, (0, 0, 0));
}

#[test]
fn a_table_that_is_abandoned_gives_each_open_and_each_reference_back(
    rt: HostRuntime,
) -> Result<(), Fail> {
    let mut table = mounted(&rt, rt.alloc(), Mode::FailClosed, Limits::greatest());
    hold_each(&rt, &mut table, &[(7, 0), (8, 3), (7, 8)]);
    answering::abandon(table);
    answering::abandon(mounted(&rt, rt.alloc(), Mode::FailOpen, Limits::greatest()));
    Ok(())
}
