use crate::config::config_table;
use crate::request::{Ask, Configured, Guard, Request};
use crate::settings::{NOTHING_SAID, Settings};
use crate::shown::config_lines;
use crate::sockets::configured;
use crate::words::{PROGRAM, read_words};
use av_fakes::{FakeWriter, Fault};
use av_status::{Form, Shown, Status, Wishes};
use av_words::{Finding, List};
use std::alloc::Global;
use std::test::Fail;

const FILES_ALONE: Finding = Finding {
    is_recursive: false,
    keeps_going: false,
    max_size: 1_048_576,
};

const NOTHING: Wishes = Wishes {
    shown: Shown::All,
    form: Form::Lines,
    has_found_status: false,
    has_summary: false,
};

// The words of a line behind the program's name.
fn words_of<'a>(alloc: Global, line: &'a str) -> Option<Vec<&'a str>> {
    let mut words = Vec::new(alloc);
    words.push(PROGRAM).ok()?;
    for word in line.split(' ') {
        words.push(word).ok()?;
    }
    Some(words)
}

// What the words ask for.
fn request_of<'a>(alloc: Global, words: &'a [&'a str]) -> Option<Request<'a>> {
    let mut out = FakeWriter::new(alloc);
    let mut err = FakeWriter::new(alloc);
    read_words(alloc, words, &mut out, &mut err).ok()
}

#[test]
fn a_usage_fault_is_one_line_and_a_help_that_cannot_be_written_is_one(
    rt: HostRuntime,
) -> Result<(), Fail> {
    let alloc = rt.alloc();
    let rows: [&[&str]; 4] = [
        &[PROGRAM],
        &[PROGRAM, "guard", "o", "s"],
        &[PROGRAM, "run", "o"],
        &[PROGRAM, "ask", "o"],
    ];
    for words in rows {
        let mut out = FakeWriter::new(alloc);
        let mut err = FakeWriter::new(alloc);
        let usage = read_words(alloc, words, &mut out, &mut err);
        assert!(&rt; matches!(usage, Err(Status::Usage)));
        assert!(&rt; out.taken().is_empty());
        assert!(&rt;
            err.taken()
                .ends_with(b" (avguard --help tells more)\n".as_slice())
        );
    }
    let mut full = FakeWriter::new(alloc)
        .in_pieces_of(1)
        .with(Fault::Fails { write: 9 });
    let mut err = FakeWriter::new(alloc);
    let help = read_words(alloc, [PROGRAM, "--help"].as_slice(), &mut full, &mut err);
    assert!(rt; matches!(help, Err(Status::Device)));
    assert_eq!(rt; err.taken(), b"device\n".as_slice());
    Ok(())
}

// The seconds that are waited at a socket of this path, as a line asks for.
fn wait_of(alloc: Global, line: &str, path: &str) -> Option<u64> {
    match request_of(alloc, words_of(alloc, line)?.as_slice()) {
        Some(Request::Guard(Guard { opens, wait, .. })) if opens == path => Some(wait),
        Some(Request::Ask(Ask { opens, wait, .. })) if opens == path => Some(wait),
        _ => None,
    }
}

#[test]
fn a_socket_has_a_path_and_a_time_to_wait(rt: HostRuntime) -> Result<(), Fail> {
    let alloc = rt.alloc();
    for (line, path, wait) in [
        ("run o s", "o", Some(30)),
        ("run o s --wait 86400", "o", Some(86_400)),
        ("ask o f", "o", Some(60)),
        ("run o s --wait 0", "o", None),
        ("ask o f --wait 86401", "o", None),
        // An empty word stands between two spaces, and at the end.
        ("run  s", "", None),
        ("run o ", "o", None),
        ("run o s --clamd ", "o", None),
        ("ask  f", "", None),
    ] {
        assert!(&rt; wait_of(alloc, line, path) == wait, "{line}");
    }
    Ok(())
}

#[test]
fn a_log_is_asked_for_with_its_file(rt: HostRuntime) -> Result<(), Fail> {
    let alloc = rt.alloc();
    for (line, wanted) in [
        ("run o s", (None, false, false)),
        ("run o s --log f", (Some("f"), false, false)),
        ("run --log - o s --log-grants", (Some("-"), true, false)),
        ("run o s --log f --log-json", (Some("f"), false, true)),
    ] {
        let Some(words) = words_of(alloc, line) else {
            continue;
        };
        let is_wanted = match request_of(alloc, words.as_slice()) {
            Some(Request::Guard(it)) => (it.log, it.log_grants, it.log_json) == wanted,
            _ => false,
        };
        assert!(&rt; is_wanted, "{line}");
    }
    Ok(())
}

// The rights of a guard's sockets for opens that a line asks for.
fn mode_of(alloc: Global, line: &str) -> Option<u32> {
    match request_of(alloc, words_of(alloc, line)?.as_slice()) {
        Some(Request::Guard(guard)) => Some(guard.mode),
        _ => None,
    }
}

#[test]
fn a_socket_has_one_of_three_modes(rt: HostRuntime) -> Result<(), Fail> {
    for (line, mode) in [
        ("run o s", Some(0o600)),
        ("run o s --mode 660", Some(0o660)),
        ("run o s --mode 666", Some(0o666)),
        ("run o s --mode 777", None),
    ] {
        assert!(&rt; mode_of(rt.alloc(), line) == mode, "{line}");
    }
    Ok(())
}

// How files are found and what is printed of them, and the list, as the words ask for.
fn asked_of<'a>(
    alloc: Global,
    words: &'a [&'a str],
) -> Option<(Finding, Wishes, Option<List<'a>>)> {
    match request_of(alloc, words) {
        Some(Request::Ask(ask)) => Some((ask.finding, ask.named.wishes, ask.named.list)),
        _ => None,
    }
}

// How files are found, as a line asks for that says nothing else.
fn finding_of(alloc: Global, line: &str) -> Option<Finding> {
    match asked_of(alloc, words_of(alloc, line)?.as_slice()) {
        Some((finding, NOTHING, None)) => Some(finding),
        _ => None,
    }
}

#[test]
fn folders_stand_for_files_and_mean_to_keep_going(rt: HostRuntime) -> Result<(), Fail> {
    let passing = Finding {
        keeps_going: true,
        ..FILES_ALONE
    };
    let recursive = Finding {
        is_recursive: true,
        ..passing
    };
    for (line, finding) in [
        ("ask o f --recursive", recursive),
        ("ask -k o f", passing),
        ("ask -r o f", recursive),
        ("ask o f --keep-going", passing),
        ("ask o f", FILES_ALONE),
    ] {
        assert!(&rt; finding_of(rt.alloc(), line) == Some(finding), "{line}");
    }
    Ok(())
}

#[test]
fn a_list_stands_for_files_and_is_ended_by_lines_or_zero_bytes(
    rt: HostRuntime,
) -> Result<(), Fail> {
    let alloc = rt.alloc();
    for command in ["ask"] {
        let lines = [PROGRAM, command, "s", "--files-from", "l"];
        let list = Some(List { path: "l", end: 10 });
        assert!(&rt; asked_of(alloc, lines.as_slice()) == Some((FILES_ALONE, NOTHING, list)));
        let zeros = [PROGRAM, command, "-0", "s", "--files-from", "-"];
        let list = Some(List { path: "-", end: 0 });
        assert!(&rt; asked_of(alloc, zeros.as_slice()) == Some((FILES_ALONE, NOTHING, list)));
        let none = [PROGRAM, command, "s"];
        assert!(&rt; asked_of(alloc, none.as_slice()).is_none());
    }
    Ok(())
}

#[test]
fn what_is_told_of_files_is_what_is_asked_for(rt: HostRuntime) -> Result<(), Fail> {
    let alloc = rt.alloc();
    let all = Wishes {
        shown: Shown::Infected,
        form: Form::Lines,
        has_found_status: true,
        has_summary: true,
    };
    let objects = Wishes {
        form: Form::Json,
        ..NOTHING
    };
    let ended = Wishes {
        form: Form::ZeroEnded,
        ..NOTHING
    };
    for command in ["ask"] {
        let words = [
            PROGRAM,
            command,
            "-i",
            "--found-status",
            "--summary",
            "s",
            "f",
        ];
        assert!(&rt; asked_of(alloc, words.as_slice()) == Some((FILES_ALONE, all, None)));
        let words = [PROGRAM, command, "--json", "s", "f"];
        assert!(&rt; asked_of(alloc, words.as_slice()) == Some((FILES_ALONE, objects, None)));
        let words = [PROGRAM, command, "--print0", "s", "f"];
        assert!(&rt; asked_of(alloc, words.as_slice()) == Some((FILES_ALONE, ended, None)));
        let words = [PROGRAM, command, "--print0", "--json", "s", "f"];
        assert!(&rt; asked_of(alloc, words.as_slice()).is_none());
    }
    Ok(())
}

// The rights of a guard's socket for its service, the versions that it believes, and where it keeps the greatest one, as a line
// asks for.
fn belief_of(alloc: Global, line: &str) -> Option<(u32, u64, u64, bool)> {
    match request_of(alloc, words_of(alloc, line)?.as_slice()) {
        Some(Request::Guard(it)) => {
            let keeps = it.state == Some("f");
            Some((it.service_mode, it.least, it.most_version, keeps))
        }
        _ => None,
    }
}

#[test]
fn a_guard_believes_a_service_as_far_as_is_said(rt: HostRuntime) -> Result<(), Fail> {
    let most = 18_446_744_073_709_551_615;
    for (line, belief) in [
        ("run o s", Some((0o600, 0, most, false))),
        ("run o s --mode 666", Some((0o600, 0, most, false))),
        ("run o s --service-mode 660", Some((0o660, 0, most, false))),
        ("run o s --service-mode 644", None),
        (
            "run o s --least 7 --most-version 9",
            Some((0o600, 7, 9, false)),
        ),
        ("run o s --least -1", None),
        (
            "run o s --most-version 18446744073709551615",
            Some((0o600, 0, most, false)),
        ),
        ("run o s --most-version 18446744073709551616", None),
        ("run o s --state f", Some((0o600, 0, most, true))),
        ("ask s f --service-mode 660", None),
    ] {
        assert!(&rt; belief_of(rt.alloc(), line) == belief, "{line}");
    }
    Ok(())
}

// The status and the fault line of a command line that asks for nothing.
fn refusal_of<'a>(alloc: Global, line: &str, err: &mut FakeWriter) -> Option<Status> {
    let words = words_of(alloc, line)?;
    let mut out = FakeWriter::new(alloc);
    match read_words(alloc, words.as_slice(), &mut out, err) {
        Ok(_) => None,
        Err(status) => Some(status),
    }
}

#[test]
fn two_sockets_of_a_guard_have_two_paths(rt: HostRuntime) -> Result<(), Fail> {
    let alloc = rt.alloc();
    let rows: [(&str, &[u8]); 4] = [
        ("run o o", b"o: two sockets have one path\n"),
        ("run o s --clamd o", b"o: two sockets have one path\n"),
        ("run o s --clamd s", b"s: two sockets have one path\n"),
        ("paths o o --below /a", b"o: two sockets have one path\n"),
    ];
    for (line, fault) in rows {
        let mut err = FakeWriter::new(alloc);
        assert_eq!(rt; refusal_of(alloc, line, &mut err), Some(Status::Usage));
        assert_eq!(rt; err.taken(), fault);
    }
    let mut err = FakeWriter::new(alloc);
    assert_eq!(rt; refusal_of(alloc, "run o s --clamd c", &mut err), None);
    Ok(())
}

// The folders, the wait, the clients and the rights of a program that opens paths, where the words ask for one.
fn opening_of(alloc: Global, line: &str) -> Option<(usize, u64, u64, u32)> {
    match request_of(alloc, words_of(alloc, line)?.as_slice()) {
        Some(Request::Paths(paths)) if paths.door == "d" && paths.opens == "o" => {
            Some((paths.below.len(), paths.wait, paths.clients, paths.mode))
        }
        _ => None,
    }
}

#[test]
fn paths_are_opened_as_the_words_say(rt: HostRuntime) -> Result<(), Fail> {
    let alloc = rt.alloc();
    for (line, wanted) in [
        ("paths d o --below /a", Some((1, 30, 16, 0o600))),
        (
            "paths d o --below /a --below /b --wait 1 --clients 64 --mode 666",
            Some((2, 1, 64, 0o666)),
        ),
        ("paths d o", None),
        ("paths d --below /a", None),
        ("paths o o --below /a", None),
        ("paths  o --below /a", None),
        ("paths d o --below /a --clients 0", None),
        ("paths d o --below /a --clients 65", None),
        ("paths d o --below /a --wait 86401", None),
        ("paths d o --below /a --mode 777", None),
    ] {
        assert!(&rt; opening_of(alloc, line) == wanted, "{line}");
    }
    Ok(())
}

#[test]
fn names_of_signatures_are_for_clients_of_clamd(rt: HostRuntime) -> Result<(), Fail> {
    let alloc = rt.alloc();
    let mut err = FakeWriter::new(alloc);
    assert_eq!(rt;
        refusal_of(alloc, "run o s --names n", &mut err),
        Some(Status::Usage)
    );
    let with_clamd = "run o s --clamd c --names n";
    assert_eq!(rt; refusal_of(alloc, with_clamd, &mut err), None);
    assert_eq!(rt;
        refusal_of(alloc, "run o s --clamd c --trust k", &mut err),
        Some(Status::Usage)
    );
    let with_names = "run o s --clamd c --names n --trust k";
    assert_eq!(rt; refusal_of(alloc, with_names, &mut err), None);
    Ok(())
}

// What becomes of the text of a configuration file `f`, beside these words: how the guard is run, as a file has it, or the fault line.
fn read_config(
    alloc: Global,
    words: Settings<'_>,
    text: &[u8],
    err: &mut FakeWriter,
) -> Result<String, Status> {
    let asked = Configured { config: "f", words };
    let table = config_table(alloc, "f", text, err)?;
    match configured(alloc, asked, text, &table, err) {
        Ok(guard) => match config_lines(alloc, guard) {
            Ok(lines) => Ok(lines),
            Err(_) => Err(Status::Memory),
        },
        Err(status) => Err(status),
    }
}

const ABSENT: &str =
    "opens = \"o\"\nservice = \"s\"\nopen = false\nwait = 30\nkeep = 67108864\nquestions = 256\nmax-size = 9223372036854775807\nstream-max-size = 26214399\nmode = \"600\"\nservice-mode = \"600\"\nleast = 0\nlog-grants = false\nlog-json = false\n";

const ALL: &str =
    "opens = \"a/o\"\nservice = \"s\"\nclamd = \"c \\u0009\"\nnames = \"n\"\ntrust = \"t\"\nopen = true\nwait = 86400\nkeep = 1099511627776\nquestions = 1\nmax-size = 1\nstream-max-size = 9223372036854775807\nmode = \"660\"\nservice-mode = \"666\"\nleast = 7\nmost-version = 9223372036854775807\nstate = \"v\"\nlog = \"-\"\nlog-grants = true\nlog-json = true\n";

#[test]
fn a_configuration_file_says_what_words_say(rt: HostRuntime) -> Result<(), Fail> {
    let alloc = rt.alloc();
    for (text, lines) in [
        ("opens = 'o'\nservice = \"s\"", ABSENT),
        (ABSENT, ABSENT),
        (ALL, ALL),
        (
            "\"opens\" = 'o'  # a remark\r\nservice=\"\\u0073\"\nwait = 0x1e\n",
            ABSENT,
        ),
    ] {
        let mut err = FakeWriter::new(alloc);
        let read = read_config(alloc, NOTHING_SAID, text.as_bytes(), &mut err);
        assert!(&rt;
            matches!(&read, Ok(shown) if shown.as_str() == lines),
            "{text}"
        );
        assert!(&rt; err.taken().is_empty());
    }
    Ok(())
}

#[test]
fn the_words_win_over_the_file(rt: HostRuntime) -> Result<(), Fail> {
    let alloc = rt.alloc();
    let said = Settings {
        opens: Some("o"),
        service: Some("s"),
        clamd: Some("c"),
        names: Some("n"),
        trust: Some("k"),
        is_open: Some(false),
        wait: Some(1),
        keep: Some(2),
        questions: Some(3),
        max_size: Some(6),
        stream_max_size: Some(7),
        mode: Some(0o600),
        service_mode: Some(0o660),
        least: Some(4),
        most_version: Some(5),
        state: Some("v"),
        log: Some("l"),
        log_grants: Some(true),
        log_json: Some(true),
    };
    let lines =
        "opens = \"o\"\nservice = \"s\"\nclamd = \"c\"\nnames = \"n\"\ntrust = \"k\"\nopen = false\nwait = 1\nkeep = 2\nquestions = 3\nmax-size = 6\nstream-max-size = 7\nmode = \"600\"\nservice-mode = \"660\"\nleast = 4\nmost-version = 5\nstate = \"v\"\nlog = \"l\"\nlog-grants = true\nlog-json = true\n";
    for (words, text, wanted) in [
        (said, ALL, lines),
        (said, "", lines),
        (NOTHING_SAID, ALL, ALL),
    ] {
        let mut err = FakeWriter::new(alloc);
        let read = read_config(alloc, words, text.as_bytes(), &mut err);
        assert!(&rt;
            matches!(&read, Ok(shown) if shown.as_str() == wanted),
            "{text}"
        );
    }
    Ok(())
}

// How a configuration file of this text alone is refused.
fn config_fault(alloc: Global, text: &[u8], err: &mut FakeWriter) -> bool {
    matches!(
        read_config(alloc, NOTHING_SAID, text, err),
        Err(Status::Usage)
    )
}

#[test]
fn a_bad_value_is_told_with_its_place(rt: HostRuntime) -> Result<(), Fail> {
    let alloc = rt.alloc();
    for (text, line) in [
        (
            "wait = 0\n",
            "f:1:8: wait: expected a number from 1 to 86400\n",
        ),
        (
            "# one\n\n  wait =\t86401",
            "f:3:10: wait: expected a number from 1 to 86400\n",
        ),
        (
            "wait = -1",
            "f:1:8: wait: expected a number from 1 to 86400\n",
        ),
        (
            "wait = 1.5",
            "f:1:8: wait: expected a number from 1 to 86400\n",
        ),
        (
            "wait = \"30\"",
            "f:1:8: wait: expected a number from 1 to 86400\n",
        ),
        (
            "wait = [30]",
            "f:1:8: wait: expected a number from 1 to 86400\n",
        ),
        (
            "wait = true",
            "f:1:8: wait: expected a number from 1 to 86400\n",
        ),
        (
            "wait.x = 1",
            "f:1:10: wait: expected a number from 1 to 86400\n",
        ),
        (
            "[wait]\nx = 1",
            "f:1:1: wait: expected a number from 1 to 86400\n",
        ),
        (
            "keep = 1099511627777",
            "f:1:8: keep: expected a number from 0 to 1099511627776\n",
        ),
        (
            "questions = 257",
            "f:1:13: questions: expected a number from 1 to 256\n",
        ),
        (
            "questions = 0",
            "f:1:13: questions: expected a number from 1 to 256\n",
        ),
        (
            "max-size = 0",
            "f:1:12: max-size: expected a number from 1 to 9223372036854775807\n",
        ),
        (
            "stream-max-size = true",
            "f:1:19: stream-max-size: expected a number from 1 to 9223372036854775807\n",
        ),
        (
            "least = -1",
            "f:1:9: least: expected a number from 0 to 18446744073709551615\n",
        ),
        (
            "most-version = \"1\"",
            "f:1:16: most-version: expected a number from 0 to 18446744073709551615\n",
        ),
    ] {
        let mut err = FakeWriter::new(alloc);
        assert!(&rt; config_fault(alloc, text.as_bytes(), &mut err), "{text}");
        let told = str::from_utf8(err.taken()).unwrap_or("");
        assert!(&rt; told == line, "{text}: {told}");
    }
    Ok(())
}

#[test]
fn a_bad_key_is_told_with_its_place(rt: HostRuntime) -> Result<(), Fail> {
    let alloc = rt.alloc();
    for (text, line) in [
        ("open = 1", "f:1:8: open: expected true or false\n"),
        ("open = \"yes\"", "f:1:8: open: expected true or false\n"),
        (
            "mode = 660",
            "f:1:8: mode: expected \"600\", \"660\" or \"666\"\n",
        ),
        (
            "service-mode = \"777\"",
            "f:1:16: service-mode: expected \"600\", \"660\" or \"666\"\n",
        ),
        (
            "opens = \"\"",
            "f:1:9: opens: expected the path of a socket, 1 to 107 bytes in quotes\n",
        ),
        (
            "service = 3",
            "f:1:11: service: expected the path of a socket, 1 to 107 bytes in quotes\n",
        ),
        (
            "clamd = false",
            "f:1:9: clamd: expected the path of a socket, 1 to 107 bytes in quotes\n",
        ),
        (
            "names = \"\"",
            "f:1:9: names: expected the path of a file in quotes\n",
        ),
        (
            "state = 1",
            "f:1:9: state: expected the path of a file in quotes\n",
        ),
        ("wait = 30\ncolour = 1", "f:2:1: colour: no such key\n"),
        ("a = 1\nopens = '''\na = '''", "f:1:1: a: no such key\n"),
        ("opens = '''\na = '''\na = 1", "f:3:1: a: no such key\n"),
        ("wait = 1\n\"a\\tb\" = 1", "f:2:1: no such key\n"),
        ("", "f: opens is missing\n"),
        ("opens = 'o'", "f: service is missing\n"),
        (
            "opens = 'o'\nservice = 's'\nnames = 'n'",
            "f: clamd is missing\n",
        ),
        (
            "opens = 'o'\nservice = 's'\ntrust = 'k'",
            "f: names is missing\n",
        ),
        (
            "trust = ''",
            "f:1:9: trust: expected the path of a file in quotes\n",
        ),
        (
            "opens = 'o'\nservice = 'o'",
            "o: two sockets have one path\n",
        ),
    ] {
        let mut err = FakeWriter::new(alloc);
        assert!(&rt; config_fault(alloc, text.as_bytes(), &mut err), "{text}");
        let told = str::from_utf8(err.taken()).unwrap_or("");
        assert!(&rt; told == line, "{text}: {told}");
    }
    Ok(())
}

#[test]
fn a_text_that_is_no_document_is_told_with_its_place(rt: HostRuntime) -> Result<(), Fail> {
    let alloc = rt.alloc();
    let rows: [(&[u8], &str); 6] = [
        (b"wait", "f:1:5: "),
        (b"wait = 1\nwait = 2\n", "f:2:1: "),
        (b"wait = 1 keep = 2", "f:1:10: "),
        (b"opens = \"o", "f:1:11: "),
        (b"\n\nleast = 9223372036854775808", "f:3:9: "),
        (b"opens = 'o'\nservice = '\xff'", "f:2:12: "),
    ];
    for (text, front) in rows {
        let mut err = FakeWriter::new(alloc);
        assert!(&rt; config_fault(alloc, text, &mut err), "{front}");
        let told = str::from_utf8(err.taken()).unwrap_or("");
        assert!(&rt; told.starts_with(front), "{front}: {told}");
        assert!(&rt; told.ends_with('\n'));
    }
    Ok(())
}

#[test]
fn a_configuration_file_has_at_most_65536_bytes(rt: HostRuntime) -> Result<(), Fail> {
    let alloc = rt.alloc();
    let spaces = vec![in alloc; b' '; 65_537]?;
    let spaces = spaces.as_slice();
    let mut err = FakeWriter::new(alloc);
    let most = spaces.get(..65_536).unwrap_or(b"".as_slice());
    assert!(&rt; config_table(alloc, "f", most, &mut err).is_ok());
    assert!(&rt; err.taken().is_empty());
    assert!(&rt; config_fault(alloc, spaces, &mut err));
    assert_eq!(rt; err.taken(), b"f: more than 65536 bytes\n".as_slice());
    Ok(())
}

// What a line says of a guard beside the file `f`.
fn said_of(alloc: Global, line: &str) -> Option<(Option<u64>, Option<bool>, Option<u32>, bool)> {
    match request_of(alloc, words_of(alloc, line)?.as_slice()) {
        Some(Request::Configured(asked)) if asked.config == "f" => {
            let said = asked.words;
            Some((said.wait, said.is_open, said.mode, said.opens == Some("o")))
        }
        _ => None,
    }
}

#[test]
fn words_beside_a_file_say_what_they_say(rt: HostRuntime) -> Result<(), Fail> {
    let alloc = rt.alloc();
    for (line, said) in [
        ("run --config f", Some((None, None, None, false))),
        ("run --config f o", Some((None, None, None, true))),
        (
            "run --config f --wait 30",
            Some((Some(30), None, None, false)),
        ),
        (
            "run --config f --open",
            Some((None, Some(true), None, false)),
        ),
        (
            "run --config f --closed",
            Some((None, Some(false), None, false)),
        ),
        ("run --config f --closed --open", None),
        (
            "run --config f --mode 600 o s",
            Some((None, None, Some(0o600), true)),
        ),
        ("run --config f --names n", Some((None, None, None, false))),
        ("run --config f --wait 0", None),
        ("run --config f o s more", None),
    ] {
        assert!(&rt; said_of(alloc, line) == said, "{line}");
    }
    let words = [PROGRAM, "check-config", "f"];
    assert!(&rt;
        matches!(
            request_of(alloc, words.as_slice()),
            Some(Request::CheckConfig("f"))
        )
    );
    assert!(&rt; request_of(alloc, [PROGRAM, "check-config"].as_slice()).is_none());
    Ok(())
}
