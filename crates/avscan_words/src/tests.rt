use crate::request::{Filter, Request, Scan, Script};
use crate::words::{PROGRAM, read_words};
use av_fakes::{FakeWriter, Fault};
use av_status::faults::EmptySets;
use av_status::{Form, Shown, Status, Wishes};
use av_words::{Finding, List};
use std::alloc::Global;
use std::test::Fail;

const FILES_ALONE: Finding = Finding {
    is_recursive: false,
    keeps_going: false,
    max_size: 1_048_576,
};

const NOTHING: Wishes = Wishes {
    shown: Shown::All,
    form: Form::Lines,
    has_found_status: false,
    has_summary: false,
};

// The words of a line behind the program's name.
fn words_of<'a>(alloc: Global, line: &'a str) -> Option<Vec<&'a str>> {
    let mut words = Vec::new(alloc);
    words.push(PROGRAM).ok()?;
    for word in line.split(' ') {
        words.push(word).ok()?;
    }
    Some(words)
}

// What the words ask for.
fn request_of<'a>(alloc: Global, words: &'a [&'a str]) -> Option<Request<'a>> {
    let mut out = FakeWriter::new(alloc);
    let mut err = FakeWriter::new(alloc);
    read_words(alloc, words, &mut out, &mut err).ok()
}

#[test]
fn words_ask_for_a_request_or_end_with_a_status(rt: HostRuntime) -> Result<(), Fail> {
    let alloc = rt.alloc();
    let mut out = FakeWriter::new(alloc);
    let mut err = FakeWriter::new(alloc);
    let scan = [PROGRAM, "scan", "s", "f", "g"];
    match read_words(alloc, scan.as_slice(), &mut out, &mut err) {
        Ok(
            Request::Scan(
                Scan {
                    set,
                    more_sets,
                    trust,
                    empty_sets,
                    named,
                    finding,
                    jobs,
                    globs,
                    is_one_device,
                    has_all_matches,
                    folder,
                },
            ),
        ) => {
            assert!(rt; more_sets.is_empty());
            assert!(rt; jobs.is_none());
            assert!(rt; globs.is_empty());
            assert!(rt; !is_one_device);
            assert!(rt; !has_all_matches);
            assert!(rt; folder.is_none());
            assert_eq!(rt; set, "s");
            assert!(rt; trust.is_none());
            assert_eq!(rt; empty_sets, EmptySets::Refused);
            assert_eq!(rt; finding, FILES_ALONE);
            assert_eq!(rt; named.files.as_slice(), ["f", "g"].as_slice());
            assert!(rt; named.list.is_none());
            assert_eq!(rt; named.wishes, NOTHING);
            assert!(rt; !named.is_quiet);
        }
        _ => panic!(rt; "no scan"),
    }
    assert!(rt;
        matches!(
            read_words(alloc, [PROGRAM].as_slice(), &mut out, &mut err),
            Ok(Request::Run(Script {
                path: "-",
                form: Form::Lines
            }))
        )
    );
    let run = [PROGRAM, "run", "--json", "s"];
    assert!(rt;
        matches!(
            read_words(alloc, run.as_slice(), &mut out, &mut err),
            Ok(Request::Run(Script {
                path: "s",
                form: Form::Json
            }))
        )
    );
    assert!(rt; out.taken().is_empty() && err.taken().is_empty());
    Ok(())
}

#[test]
fn a_usage_fault_is_one_line_and_a_help_that_cannot_be_written_is_one(
    rt: HostRuntime,
) -> Result<(), Fail> {
    let alloc = rt.alloc();
    let mut out = FakeWriter::new(alloc);
    let mut err = FakeWriter::new(alloc);
    let words = [PROGRAM, "scan", "s"];
    let usage = read_words(alloc, words.as_slice(), &mut out, &mut err);
    assert!(rt; matches!(usage, Err(Status::Usage)));
    assert!(rt; out.taken().is_empty());
    assert!(rt;
        err.taken()
            .ends_with(b" (avscan --help tells more)\n".as_slice())
    );
    let mut full = FakeWriter::new(alloc)
        .in_pieces_of(1)
        .with(Fault::Fails { write: 9 });
    let mut err = FakeWriter::new(alloc);
    let help = read_words(alloc, [PROGRAM, "--help"].as_slice(), &mut full, &mut err);
    assert!(rt; matches!(help, Err(Status::Device)));
    assert_eq!(rt; err.taken(), b"device\n".as_slice());
    Ok(())
}

// How many threads open files in this process, how many scan, and whether a second service stands by, as a line asks for.
fn crew_of(alloc: Global, line: &str) -> Option<(usize, usize, bool)> {
    match request_of(alloc, words_of(alloc, line)?.as_slice()) {
        Some(Request::Host(host)) => Some((host.openers, host.workers, host.has_spare)),
        _ => None,
    }
}

#[test]
fn a_host_has_one_to_sixteen_openers_and_workers(rt: HostRuntime) -> Result<(), Fail> {
    for (line, crew) in [
        ("host s f", Some((2, 2, false))),
        ("host s f --openers 16 --workers 1", Some((16, 1, false))),
        ("host s f --spare", Some((2, 2, true))),
        ("host s f --openers 17", None),
        ("host s f --workers 0", None),
        ("host s f --spare --spare", None),
        ("filter s f --spare", None),
    ] {
        assert!(&rt; crew_of(rt.alloc(), line) == crew, "{line}");
    }
    Ok(())
}

// The seconds that are waited at a socket of this path, as a line asks for.
fn wait_of(alloc: Global, line: &str, path: &str) -> Option<u64> {
    match request_of(alloc, words_of(alloc, line)?.as_slice()) {
        Some(Request::Filter(Filter { socket, wait, .. })) if socket == path => Some(wait),
        Some(Request::Service(it)) if it.socket == path => Some(it.wait),
        _ => None,
    }
}

#[test]
fn a_socket_has_a_path_and_a_time_to_wait(rt: HostRuntime) -> Result<(), Fail> {
    let alloc = rt.alloc();
    for (line, path, wait) in [
        ("filter s f", "s", Some(30)),
        ("service t s --wait 1", "t", Some(1)),
        ("service t s --wait 86400", "t", Some(86_400)),
        ("filter s f --wait 0", "s", None),
        ("filter s f --wait 86401", "s", None),
        // An empty word stands between two spaces, and at the end.
        ("filter  f", "", None),
        ("service  s", "", None),
    ] {
        assert!(&rt; wait_of(alloc, line, path) == wait, "{line}");
    }
    Ok(())
}

// Whether a line asks for a service that comes beside another one.
fn spare_of(alloc: Global, line: &str) -> Option<bool> {
    match request_of(alloc, words_of(alloc, line)?.as_slice()) {
        Some(Request::Service(service)) => Some(service.is_spare),
        _ => None,
    }
}

#[test]
fn a_service_is_a_spare_where_a_line_says_so(rt: HostRuntime) -> Result<(), Fail> {
    for (line, is_spare) in [
        ("service t s", Some(false)),
        ("service t s --spare", Some(true)),
        ("service --spare t s --watch 10", Some(true)),
        ("service t s --spare --spare", None),
        ("service t s --spare 2", None),
    ] {
        assert!(&rt; spare_of(rt.alloc(), line) == is_spare, "{line}");
    }
    Ok(())
}

// Whether a line asks for a service, and every how many seconds it is to look at its signature file.
fn watch_of(alloc: Global, line: &str) -> Option<Option<u64>> {
    match request_of(alloc, words_of(alloc, line)?.as_slice()) {
        Some(Request::Service(service)) => Some(service.watch),
        _ => None,
    }
}

#[test]
fn a_service_looks_at_its_signature_file_every_1_to_86400_seconds_or_never(
    rt: HostRuntime,
) -> Result<(), Fail> {
    for (line, seconds) in [
        ("service t s", Some(None)),
        ("service t s --watch 0", None),
        ("service t s --watch 1", Some(Some(1))),
        ("service t s --watch 86400", Some(Some(86_400))),
        ("service t s --watch 86401", None),
        ("service t s --watch ", None),
        ("service t s --watch 1.5", None),
        ("filter s f --watch 1", None),
    ] {
        assert!(&rt; watch_of(rt.alloc(), line) == seconds, "{line}");
    }
    Ok(())
}

// The rights of a socket that a line asks for.
fn mode_of(alloc: Global, line: &str) -> Option<u32> {
    match request_of(alloc, words_of(alloc, line)?.as_slice()) {
        Some(Request::Filter(filter)) => Some(filter.mode),
        _ => None,
    }
}

#[test]
fn a_socket_has_one_of_three_modes(rt: HostRuntime) -> Result<(), Fail> {
    for (line, mode) in [
        ("filter s f", Some(0o600)),
        ("filter s f --mode 600", Some(0o600)),
        ("filter s f --mode 660", Some(0o660)),
        ("filter s f --mode 666", Some(0o666)),
        ("filter s f --mode 777", None),
    ] {
        assert!(&rt; mode_of(rt.alloc(), line) == mode, "{line}");
    }
    Ok(())
}

// How files are found and what is printed of them, and the list, as the words ask for.
fn asked_of<'a>(
    alloc: Global,
    words: &'a [&'a str],
) -> Option<(Finding, Wishes, Option<List<'a>>)> {
    match request_of(alloc, words) {
        Some(Request::Scan(scan)) => Some((scan.finding, scan.named.wishes, scan.named.list)),
        Some(Request::Host(host)) => Some((FILES_ALONE, host.named.wishes, host.named.list)),
        Some(Request::Filter(filter)) => {
            Some((FILES_ALONE, filter.named.wishes, filter.named.list))
        }
        _ => None,
    }
}

// How files are found, as a line asks for that says nothing else.
fn finding_of(alloc: Global, line: &str) -> Option<Finding> {
    match asked_of(alloc, words_of(alloc, line)?.as_slice()) {
        Some((finding, NOTHING, None)) => Some(finding),
        _ => None,
    }
}

#[test]
fn folders_stand_for_files_and_mean_to_keep_going(rt: HostRuntime) -> Result<(), Fail> {
    let passing = Finding {
        keeps_going: true,
        ..FILES_ALONE
    };
    let recursive = Finding {
        is_recursive: true,
        ..passing
    };
    for (line, finding) in [
        ("scan -r s f", recursive),
        ("scan s f --recursive", recursive),
        ("scan -k s f", passing),
        ("scan s f", FILES_ALONE),
    ] {
        assert!(&rt; finding_of(rt.alloc(), line) == Some(finding), "{line}");
    }
    Ok(())
}

#[test]
fn a_scan_has_one_to_sixty_four_threads(rt: HostRuntime) -> Result<(), Fail> {
    let alloc = rt.alloc();
    for (line, jobs) in [
        ("scan -j 1 s f", Some(1)),
        ("scan -j4 s f", Some(4)),
        ("scan s --jobs 64 f", Some(64)),
        ("scan -j 0 s f", None),
        ("scan -j 65 s f", None),
        ("scan -j x s f", None),
    ] {
        let words = words_of(alloc, line);
        let found = match words
            .as_ref()
            .and_then(|it| request_of(alloc, it.as_slice()))
        {
            Some(Request::Scan(scan)) => scan.jobs,
            _ => None,
        };
        assert!(&rt; found == jobs, "{line}");
    }
    Ok(())
}

#[test]
fn a_file_has_up_to_as_many_bytes_as_are_asked_for(rt: HostRuntime) -> Result<(), Fail> {
    for (line, size) in [
        ("scan --max-size 1 s f", Some(1)),
        (
            "scan --max-size 9223372036854775807 s f",
            Some(9_223_372_036_854_775_807),
        ),
        ("scan --max-size 0 s f", None),
        ("scan --max-size 9223372036854775808 s f", None),
        ("scan --max-size -1 s f", None),
        ("scan --max-size 1k s f", None),
        ("scan --max-size K s f", None),
        ("scan --max-size 1KK s f", None),
        ("scan --max-size 0M s f", None),
        ("scan --max-size 9007199254740992K s f", None),
        ("scan --max-size 1K s f", Some(1_024)),
        ("scan --max-size 30M s f", Some(31_457_280)),
        ("scan --max-size 2G s f", Some(2_147_483_648)),
        (
            "scan --max-size 8589934591G s f",
            Some(9_223_372_035_781_033_984),
        ),
    ] {
        let finding = finding_of(rt.alloc(), line);
        assert!(&rt; finding.map(|it| it.max_size) == size, "{line}");
    }
    Ok(())
}

#[test]
fn a_list_stands_for_files_and_is_ended_by_lines_or_zero_bytes(
    rt: HostRuntime,
) -> Result<(), Fail> {
    let alloc = rt.alloc();
    for command in ["scan", "host", "filter"] {
        let lines = [PROGRAM, command, "s", "--files-from", "l"];
        let list = Some(List { path: "l", end: 10 });
        assert!(&rt; asked_of(alloc, lines.as_slice()) == Some((FILES_ALONE, NOTHING, list)));
        let zeros = [PROGRAM, command, "-0", "s", "--files-from", "-"];
        let list = Some(List { path: "-", end: 0 });
        assert!(&rt; asked_of(alloc, zeros.as_slice()) == Some((FILES_ALONE, NOTHING, list)));
        let none = [PROGRAM, command, "s"];
        assert!(&rt; asked_of(alloc, none.as_slice()).is_none());
    }
    Ok(())
}

#[test]
fn what_is_told_of_files_is_what_is_asked_for(rt: HostRuntime) -> Result<(), Fail> {
    let alloc = rt.alloc();
    let all = Wishes {
        shown: Shown::Infected,
        form: Form::Lines,
        has_found_status: true,
        has_summary: true,
    };
    let objects = Wishes {
        form: Form::Json,
        ..NOTHING
    };
    let ended = Wishes {
        form: Form::ZeroEnded,
        ..NOTHING
    };
    for command in ["scan", "host", "filter"] {
        let words = [
            PROGRAM,
            command,
            "-i",
            "--found-status",
            "--summary",
            "s",
            "f",
        ];
        assert!(&rt; asked_of(alloc, words.as_slice()) == Some((FILES_ALONE, all, None)));
        let words = [PROGRAM, command, "--json", "s", "f"];
        assert!(&rt; asked_of(alloc, words.as_slice()) == Some((FILES_ALONE, objects, None)));
        let words = [PROGRAM, command, "--print0", "s", "f"];
        assert!(&rt; asked_of(alloc, words.as_slice()) == Some((FILES_ALONE, ended, None)));
        let words = [PROGRAM, command, "--print0", "--json", "s", "f"];
        assert!(&rt; asked_of(alloc, words.as_slice()).is_none());
    }
    Ok(())
}

// Whether a line asks for each signature that occurs in a file, and how many bytes a file may have.
fn matches_of(alloc: Global, line: &str) -> Option<(bool, u64)> {
    match request_of(alloc, words_of(alloc, line)?.as_slice()) {
        Some(Request::Scan(scan)) => Some((scan.has_all_matches, scan.finding.max_size)),
        _ => None,
    }
}

#[test]
fn each_match_is_told_of_files_of_up_to_64_mib(rt: HostRuntime) -> Result<(), Fail> {
    for (line, matches) in [
        ("scan s f", Some((false, 1_048_576))),
        ("scan --all-matches s f", Some((true, 1_048_576))),
        (
            "scan s f --all-matches --max-size 64M",
            Some((true, 67_108_864)),
        ),
        (
            "scan s f --all-matches --max-size 67108864",
            Some((true, 67_108_864)),
        ),
        ("scan s f --all-matches --max-size 67108865", None),
        ("scan s f --all-matches --max-size 1G", None),
        ("scan s f --max-size 1G", Some((false, 1_073_741_824))),
        ("scan s f --all-matches --all-matches", None),
        ("scan s f --all-matches=1", None),
        ("host s f --all-matches", None),
    ] {
        assert!(&rt; matches_of(rt.alloc(), line) == matches, "{line}");
    }
    Ok(())
}

// The folder that a line has infected files moved into.
fn folder_of(alloc: Global, line: &str) -> Option<String> {
    match request_of(alloc, words_of(alloc, line)?.as_slice()) {
        Some(Request::Scan(scan)) => String::from_str(alloc, scan.folder?).ok(),
        _ => None,
    }
}

#[test]
fn infected_files_are_moved_where_that_is_asked_for(rt: HostRuntime) -> Result<(), Fail> {
    for (line, folder) in [
        ("scan s f", None),
        ("scan --move q s f", Some("q")),
        ("scan s f --move=q/r -r", Some("q/r")),
        ("scan s f --move", None),
        ("scan s f --move q --move r", None),
        ("host --move q s f", None),
    ] {
        let got = folder_of(rt.alloc(), line);
        assert!(&rt;
            got.as_ref().map(|folder| folder.as_str()) == folder,
            "{line}"
        );
    }
    Ok(())
}

// Whether a line allows a set without signatures.
fn allowance_of(alloc: Global, line: &str) -> Option<EmptySets> {
    match request_of(alloc, words_of(alloc, line)?.as_slice()) {
        Some(Request::Scan(scan)) => Some(scan.empty_sets),
        Some(Request::Host(host)) => Some(host.empty_sets),
        Some(Request::Service(service)) => Some(service.empty_sets),
        _ => None,
    }
}

#[test]
fn a_set_without_signatures_is_allowed_where_a_line_says_so(rt: HostRuntime) -> Result<(), Fail> {
    for (line, allows) in [
        ("scan s f", Some(EmptySets::Refused)),
        ("scan --allow-empty s f", Some(EmptySets::Allowed)),
        ("host s f", Some(EmptySets::Refused)),
        ("host s f --allow-empty", Some(EmptySets::Allowed)),
        ("service t s", Some(EmptySets::Refused)),
        ("service t s --allow-empty", Some(EmptySets::Allowed)),
        ("filter t f --allow-empty", None),
    ] {
        assert!(&rt; allowance_of(rt.alloc(), line) == allows, "{line}");
    }
    Ok(())
}

// The key that a line trusts.
fn trust_of<'a>(alloc: Global, words: &'a [&'a str]) -> Option<Option<&'a str>> {
    match request_of(alloc, words) {
        Some(Request::Scan(scan)) => Some(scan.trust),
        Some(Request::Host(host)) => Some(host.trust),
        Some(Request::Service(service)) => Some(service.trust),
        Some(Request::Check(check)) => Some(check.trust),
        _ => None,
    }
}

#[test]
fn a_key_is_trusted_where_a_line_says_so(rt: HostRuntime) -> Result<(), Fail> {
    let alloc = rt.alloc();
    for (line, trust) in [
        ("scan s f", Some(None)),
        ("scan --trust k s f", Some(Some("k"))),
        ("host s f --trust k", Some(Some("k"))),
        ("service t s --trust k", Some(Some("k"))),
        ("check s --trust k", Some(Some("k"))),
        ("check s", Some(None)),
        ("check s --trust", None),
        ("scan s f --trust k --trust k", None),
        ("filter t f --trust k", None),
    ] {
        let words = words_of(alloc, line).unwrap_or(Vec::new(alloc));
        assert!(&rt; trust_of(alloc, words.as_slice()) == trust, "{line}");
    }
    Ok(())
}

// The status and the fault line of a command line that asks for nothing.
fn refusal_of<'a>(alloc: Global, line: &str, err: &mut FakeWriter) -> Option<Status> {
    let words = words_of(alloc, line)?;
    let mut out = FakeWriter::new(alloc);
    match read_words(alloc, words.as_slice(), &mut out, err) {
        Ok(_) => None,
        Err(status) => Some(status),
    }
}

#[test]
fn a_command_that_another_program_has_now_is_named_with_that_program(
    rt: HostRuntime,
) -> Result<(), Fail> {
    let alloc = rt.alloc();
    let rows: [(&str, &[u8]); 7] = [
        (
            "guard",
            b"guard is now avguard run (avscan --help tells more)\n",
        ),
        (
            "guard o s --open",
            b"guard is now avguard run (avscan --help tells more)\n",
        ),
        (
            "ask --help",
            b"ask is now avguard ask (avscan --help tells more)\n",
        ),
        (
            "chart s",
            b"chart is now avtool chart (avscan --help tells more)\n",
        ),
        (
            "generate --seed 1 --commands 1",
            b"generate is now avtool generate (avscan --help tells more)\n",
        ),
        (
            "import a b",
            b"import is now avtool import (avscan --help tells more)\n",
        ),
        (
            "import --nothing",
            b"import is now avtool import (avscan --help tells more)\n",
        ),
    ];
    for (line, fault) in rows {
        let mut err = FakeWriter::new(alloc);
        assert_eq!(rt; refusal_of(alloc, line, &mut err), Some(Status::Usage));
        assert_eq!(rt; err.taken(), fault);
    }
    let mut err = FakeWriter::new(alloc);
    assert_eq!(rt;
        refusal_of(alloc, "guards o s", &mut err),
        Some(Status::Usage)
    );
    assert!(rt; !err.taken().starts_with(b"guards is now".as_slice()));
    Ok(())
}

// How many signature files a line asks to check.
fn checked_of(alloc: Global, line: &str) -> Option<usize> {
    match request_of(alloc, words_of(alloc, line)?.as_slice()) {
        Some(Request::Check(check)) => Some(check.sets.len()),
        _ => None,
    }
}

#[test]
fn one_signature_file_at_least_is_checked(rt: HostRuntime) -> Result<(), Fail> {
    for (line, count) in [
        ("check s", Some(1)),
        ("check s t", Some(2)),
        ("check", None),
    ] {
        assert!(&rt; checked_of(rt.alloc(), line) == count, "{line}");
    }
    Ok(())
}
