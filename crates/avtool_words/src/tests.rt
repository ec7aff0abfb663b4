use crate::request::{Request, Taking};
use crate::words::{PROGRAM, read_words};
use av_fakes::{FakeWriter, Fault};
use av_status::Status;
use std::alloc::Global;
use std::test::Fail;

// The words of a line behind the program's name.
fn words_of<'a>(alloc: Global, line: &'a str) -> Option<Vec<&'a str>> {
    let mut words = Vec::new(alloc);
    words.push(PROGRAM).ok()?;
    for word in line.split(' ') {
        words.push(word).ok()?;
    }
    Some(words)
}

// What the words ask for.
fn request_of<'a>(alloc: Global, words: &'a [&'a str]) -> Option<Request<'a>> {
    let mut out = FakeWriter::new(alloc);
    let mut err = FakeWriter::new(alloc);
    read_words(alloc, words, &mut out, &mut err).ok()
}

#[test]
fn a_usage_fault_is_one_line_and_a_help_that_cannot_be_written_is_one(
    rt: HostRuntime,
) -> Result<(), Fail> {
    let alloc = rt.alloc();
    let rows: [&[&str]; 4] = [
        &[PROGRAM],
        &[PROGRAM, "run", "s"],
        &[PROGRAM, "chart"],
        &[PROGRAM, "generate", "--seed", "1"],
    ];
    for words in rows {
        let mut out = FakeWriter::new(alloc);
        let mut err = FakeWriter::new(alloc);
        let usage = read_words(alloc, words, &mut out, &mut err);
        assert!(&rt; matches!(usage, Err(Status::Usage)));
        assert!(&rt; out.taken().is_empty());
        assert!(&rt;
            err.taken()
                .ends_with(b" (avtool --help tells more)\n".as_slice())
        );
    }
    let mut full = FakeWriter::new(alloc)
        .in_pieces_of(1)
        .with(Fault::Fails { write: 9 });
    let mut err = FakeWriter::new(alloc);
    let help = read_words(alloc, [PROGRAM, "--help"].as_slice(), &mut full, &mut err);
    assert!(rt; matches!(help, Err(Status::Device)));
    assert_eq!(rt; err.taken(), b"device\n".as_slice());
    Ok(())
}

// Which lines are drawn of a script, as a line asks for.
fn lines_of(alloc: Global, line: &str) -> Option<(u64, u64)> {
    match request_of(alloc, words_of(alloc, line)?.as_slice()) {
        Some(Request::Chart(chart)) if chart.script == "s" => Some((chart.from, chart.to)),
        _ => None,
    }
}

#[test]
fn all_lines_are_drawn_or_those_that_are_asked_for(rt: HostRuntime) -> Result<(), Fail> {
    for (line, lines) in [
        ("chart s", Some((1, 18_446_744_073_709_551_615))),
        ("chart --from 3 --to 7 s", Some((3, 7))),
        ("chart --from 0 s", None),
    ] {
        assert!(&rt; lines_of(rt.alloc(), line) == lines, "{line}");
    }
    Ok(())
}

// The seed, the count of commands and whether all are drawn alike, as a line asks for.
fn draws_of(alloc: Global, line: &str) -> Option<(u64, u64, bool)> {
    match request_of(alloc, words_of(alloc, line)?.as_slice()) {
        Some(Request::Generate(it)) => Some((it.seed, it.commands, it.is_uniform)),
        _ => None,
    }
}

#[test]
fn a_random_script_has_a_seed_and_a_length(rt: HostRuntime) -> Result<(), Fail> {
    for (line, draws) in [
        ("generate --seed 0 --commands 1", Some((0, 1, false))),
        (
            "generate --seed 18446744073709551615 --commands 100000",
            Some((18_446_744_073_709_551_615, 100_000, false)),
        ),
        ("generate --seed 18446744073709551616 --commands 1", None),
        ("generate --seed 1 --commands 0", None),
        ("generate --seed 1 --commands 100001", None),
        ("generate --commands 2", None),
        (
            "generate --seed 1 --commands 2 --profile uniform",
            Some((1, 2, true)),
        ),
        (
            "generate --seed 1 --commands 2 --profile deep",
            Some((1, 2, false)),
        ),
        ("generate --seed 1 --commands 2 --profile flat", None),
    ] {
        assert!(&rt; draws_of(rt.alloc(), line) == draws, "{line}");
    }
    Ok(())
}

// The version of what is written, how many files are read, which signatures are taken and which file is written, as a line asks
// for.
fn taking_of<'a>(
    alloc: Global,
    words: &'a [&'a str],
) -> Option<(u64, usize, Taking, Option<&'a str>)> {
    match request_of(alloc, words) {
        Some(Request::Import(it)) => Some((it.version, it.files.len(), it.taking, it.output)),
        _ => None,
    }
}

#[test]
fn signatures_are_taken_as_is_asked_for(rt: HostRuntime) -> Result<(), Fail> {
    let alloc = rt.alloc();
    let plain = Taking {
        takes_any_target: false,
        has_format_1: false,
        wants_all: false,
    };
    let any_target = Taking {
        takes_any_target: true,
        ..plain
    };
    let format_1 = Taking {
        has_format_1: true,
        ..plain
    };
    let all = Taking {
        wants_all: true,
        ..plain
    };
    for (line, taking) in [
        ("import a", Some((1, 1, plain, None))),
        ("import --any-target a b", Some((1, 2, any_target, None))),
        ("import --format-1 a b", Some((1, 2, format_1, None))),
        ("import --all a b", Some((1, 2, all, None))),
        (
            "import --set-version 18446744073709551615 a",
            Some((18_446_744_073_709_551_615, 1, plain, None)),
        ),
        ("import a --output c", Some((1, 1, plain, Some("c")))),
        ("import --output c --all a b", Some((1, 2, all, Some("c")))),
        ("import --set-version 0 a", None),
        ("import --output c", None),
        ("import a --output", None),
        ("import", None),
    ] {
        let words = words_of(alloc, line).unwrap_or(Vec::new(alloc));
        assert!(&rt; taking_of(alloc, words.as_slice()) == taking, "{line}");
    }
    Ok(())
}

// How many files are merged, under which version and into which file, as a line asks for.
fn merge_of<'a>(
    alloc: Global,
    words: &'a [&'a str],
) -> Option<(usize, Option<u64>, Option<&'a str>)> {
    match request_of(alloc, words) {
        Some(Request::Merge(it)) => Some((it.files.len(), it.version, it.output)),
        _ => None,
    }
}

#[test]
fn sets_are_merged_as_is_asked_for(rt: HostRuntime) -> Result<(), Fail> {
    let alloc = rt.alloc();
    for (line, merge) in [
        ("merge a", Some((1, None, None))),
        ("merge a b c", Some((3, None, None))),
        ("merge --set-version 1 a b", Some((2, Some(1), None))),
        (
            "merge a b --set-version 18446744073709551615 --output c",
            Some((2, Some(18_446_744_073_709_551_615), Some("c"))),
        ),
        ("merge --set-version 0 a", None),
        ("merge --set-version 18446744073709551616 a", None),
        ("merge --output c", None),
        ("merge", None),
    ] {
        let words = words_of(alloc, line).unwrap_or(Vec::new(alloc));
        assert!(&rt; merge_of(alloc, words.as_slice()) == merge, "{line}");
    }
    Ok(())
}

// Which file is signed, with which key, which one it has to be signed with already, and what is written, as a line asks for.
fn sign_of<'a>(
    alloc: Global,
    words: &'a [&'a str],
) -> Option<(&'a str, &'a str, Option<&'a str>, Option<&'a str>)> {
    match request_of(alloc, words) {
        Some(Request::Sign(it)) => Some((it.set, it.key, it.trust, it.output)),
        _ => None,
    }
}

#[test]
fn a_set_is_signed_as_is_asked_for(rt: HostRuntime) -> Result<(), Fail> {
    let alloc = rt.alloc();
    for (line, sign) in [
        ("sign --key k s", Some(("s", "k", None, None))),
        (
            "sign s --output o --key k --trust t",
            Some(("s", "k", Some("t"), Some("o"))),
        ),
        ("sign s", None),
        ("sign --key k", None),
        ("sign --key k s t", None),
    ] {
        let words = words_of(alloc, line).unwrap_or(Vec::new(alloc));
        assert!(&rt; sign_of(alloc, words.as_slice()) == sign, "{line}");
    }
    Ok(())
}

#[test]
fn a_merge_trusts_a_key_where_a_line_says_so(rt: HostRuntime) -> Result<(), Fail> {
    let alloc = rt.alloc();
    for (line, trust) in [
        ("merge a", Some(None)),
        ("merge a b --trust k", Some(Some("k"))),
        ("merge a --trust", None),
    ] {
        let words = words_of(alloc, line).unwrap_or(Vec::new(alloc));
        let found = match request_of(alloc, words.as_slice()) {
            Some(Request::Merge(it)) => Some(it.trust),
            _ => None,
        };
        assert!(&rt; found == trust, "{line}");
    }
    Ok(())
}
