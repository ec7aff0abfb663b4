// What stands above a row's own commands: nothing, a stream with a connected service, or the same up to a clean reply.
#[derive(Clone, Copy)]
pub enum Head {
    Nothing,
    Connected,
    Scanned,
}

pub const CONNECTED: &[u8] = b"\
    volume 1 closed\n\
    publish 1 5858\n\
    create a\n\
    write a 0 414243\n\
    connect\n\
    up 1\n";

pub const CONNECTED_LINES: &[u8] = b"\
    boot 1\n\
    version 1 signatures 1\n\
    stream 1 generation 1\n\
    stream 1 generation 2 length 3\n\
    up 1 hello volume 1 version 1\n\
    note Welcome\n";

pub const SCANNED: &[u8] = b"\
    open a\n\
    down 1\n\
    up 2\n\
    down 2\n\
    work 1\n";

pub const SCANNED_LINES: &[u8] = b"\
    open 1 pended\n\
    down 1 scan 1.1 stream 1 generation 2 length 3\n\
    up 2 read 1.1 offset 0 count 3\n\
    down 2 chunk 1.1 offset 0 bytes 414243\n\
    work 1 lent 1.1 offset 0 length 3\n\
    up 3 reply 1.1 version 1 clean\n";

// A script and the lines that it prints.
pub struct Row {
    pub name: &'static str,
    pub head: Head,
    pub commands: &'static [u8],
    pub lines: &'static [u8],
}

pub const ROWS: [Row; 33] = [
    Row {
        name: "a_service_connects_and_is_welcome",
        head: Head::Connected,
        commands: b"",
        lines: b"",
    },
    Row {
        name: "an_open_waits_while_its_content_is_scanned",
        head: Head::Scanned,
        commands: b"",
        lines: b"",
    },
    Row {
        name: "nothing_is_judged_without_a_set",
        head: Head::Nothing,
        commands: b"\
            volume 1 closed\n\
            create a\n\
            judge a\n",
        lines: b"\
            boot 1\n\
            stream 1 generation 1\n\
            refused NoSignatures\n",
    },
    Row {
        name: "no_set_has_version_0",
        head: Head::Nothing,
        commands: b"\
            volume 1 closed\n\
            publish 0\n",
        lines: b"\
            boot 1\n\
            refused BadSet\n",
    },
    Row {
        name: "a_restarted_service_greets_again",
        head: Head::Scanned,
        commands: b"\
            restart service\n\
            connect\n",
        lines: b"up 4 hello volume 1 version 1\n",
    },
    Row {
        name: "a_signature_is_found",
        head: Head::Nothing,
        commands: b"\
            volume 1 closed\n\
            publish 1 4142\n\
            create a\n\
            write a 0 414243\n\
            judge a\n",
        lines: b"\
            boot 1\n\
            version 1 signatures 1\n\
            stream 1 generation 1\n\
            stream 1 generation 2 length 3\n\
            judge 1 generation 2 version 1 infected 0 end 2\n",
    },
    Row {
        name: "a_cut_takes_a_signature_away",
        head: Head::Nothing,
        commands: b"\
            volume 1 closed\n\
            publish 1 4142\n\
            create a\n\
            write a 0 414243\n\
            cut a 1\n\
            judge a\n",
        lines: b"\
            boot 1\n\
            version 1 signatures 1\n\
            stream 1 generation 1\n\
            stream 1 generation 2 length 3\n\
            stream 1 generation 3 length 1\n\
            judge 1 generation 3 version 1 clean\n",
    },
    Row {
        name: "a_verdict_is_of_the_latest_set",
        head: Head::Nothing,
        commands: b"\
            volume 1 closed\n\
            publish 1 41\n\
            create a\n\
            judge a\n\
            publish 2\n\
            write a 0 41\n\
            judge a\n",
        lines: b"\
            boot 1\n\
            version 1 signatures 1\n\
            stream 1 generation 1\n\
            judge 1 generation 1 version 1 clean\n\
            version 2 signatures 0\n\
            stream 1 generation 2 length 1\n\
            judge 1 generation 2 version 2 clean\n",
    },
    Row {
        name: "the_least_end_counts",
        head: Head::Nothing,
        commands: b"\
            volume 1 closed\n\
            publish 1 4243 414243\n\
            create a\n\
            write a 0 414243\n\
            judge a\n",
        lines: b"\
            boot 1\n\
            version 1 signatures 2\n\
            stream 1 generation 1\n\
            stream 1 generation 2 length 3\n\
            judge 1 generation 2 version 1 infected 0 end 3\n",
    },
    Row {
        name: "a_clean_reply_grants_the_open_and_the_next_at_once",
        head: Head::Scanned,
        commands: b"\
            up 3\n\
            open a\n",
        lines: b"\
            open 1 granted stream 1 generation 2 version 1 least 0\n\
            open 2 granted stream 1 generation 2 version 1 least 0\n",
    },
    Row {
        name: "a_content_is_scanned_byte_by_byte",
        head: Head::Nothing,
        commands: b"\
            limit chunk 1\n\
            volume 1 closed\n\
            publish 1 414243\n\
            create a\n\
            write a 0 414243\n\
            connect\n\
            up 1\n\
            open a\n\
            down 1\n\
            up 2\n\
            down 2\n\
            work 1\n\
            up 3\n\
            down 3\n\
            work 2\n\
            up 4\n\
            down 4\n\
            work 3\n\
            up 5\n",
        lines: b"\
            boot 1\n\
            version 1 signatures 1\n\
            stream 1 generation 1\n\
            stream 1 generation 2 length 3\n\
            up 1 hello volume 1 version 1\n\
            note Welcome\n\
            open 1 pended\n\
            down 1 scan 1.1 stream 1 generation 2 length 3\n\
            up 2 read 1.1 offset 0 count 1\n\
            down 2 chunk 1.1 offset 0 bytes 41\n\
            work 1 lent 1.1 offset 0 length 1\n\
            up 3 read 1.1 offset 1 count 1\n\
            down 3 chunk 1.1 offset 1 bytes 42\n\
            work 2 lent 1.1 offset 1 length 1\n\
            up 4 read 1.1 offset 2 count 1\n\
            down 4 chunk 1.1 offset 2 bytes 43\n\
            work 3 lent 1.1 offset 2 length 1\n\
            up 5 reply 1.1 version 1 infected 0 end 3\n\
            open 1 denied cause 2\n",
    },
    Row {
        name: "a_late_reply_on_older_content_finds_no_waiter",
        head: Head::Scanned,
        commands: b"\
            write a 3 44\n\
            up 3\n\
            down 4\n",
        lines: b"\
            stream 1 generation 3 length 4\n\
            down 3 abort 1.1\n\
            down 4 scan 1.2 stream 1 generation 3 length 4\n\
            note NoWaiter\n\
            up 4 read 1.2 offset 0 count 4\n",
    },
    Row {
        name: "a_repeated_reply_finds_no_waiter",
        head: Head::Scanned,
        commands: b"\
            up 3\n\
            up 3\n",
        lines: b"\
            open 1 granted stream 1 generation 2 version 1 least 0\n\
            note NoWaiter\n",
    },
    Row {
        name: "a_timeout_denies_and_the_late_reply_finds_no_waiter",
        head: Head::Scanned,
        commands: b"\
            timeout 1\n\
            up 3\n",
        lines: b"\
            open 1 denied cause 5\n\
            down 3 abort 1.1\n\
            note NoWaiter\n",
    },
    Row {
        name: "a_timeout_lets_through_in_fail_open_mode",
        head: Head::Nothing,
        commands: b"\
            volume 1 open\n\
            publish 1 5858\n\
            create a\n\
            write a 0 414243\n\
            connect\n\
            up 1\n\
            open a\n\
            down 1\n\
            up 2\n\
            down 2\n\
            work 1\n\
            timeout 1\n\
            up 3\n",
        lines: b"\
            boot 1\n\
            version 1 signatures 1\n\
            stream 1 generation 1\n\
            stream 1 generation 2 length 3\n\
            up 1 hello volume 1 version 1\n\
            note Welcome\n\
            open 1 pended\n\
            down 1 scan 1.1 stream 1 generation 2 length 3\n\
            up 2 read 1.1 offset 0 count 3\n\
            down 2 chunk 1.1 offset 0 bytes 414243\n\
            work 1 lent 1.1 offset 0 length 3\n\
            up 3 reply 1.1 version 1 clean\n\
            open 1 unscanned stream 1 generation 2 cause 5\n\
            down 3 abort 1.1\n\
            note NoWaiter\n",
    },
    Row {
        name: "a_restarted_filter_forgets_its_questions",
        head: Head::Scanned,
        commands: b"\
            restart filter\n\
            disconnect service\n\
            connect\n\
            up 4\n\
            open a\n\
            up 3\n\
            down 3\n\
            up 5\n",
        lines: b"\
            boot 2\n\
            open 1 denied cause 10\n\
            up 4 hello volume 1 version 1\n\
            note Welcome\n\
            open 2 pended\n\
            down 3 scan 2.1 stream 1 generation 2 length 3\n\
            note NoWaiter\n\
            up 5 reply 2.1 version 1 clean\n\
            open 2 granted stream 1 generation 2 version 1 least 0\n",
    },
    Row {
        name: "a_reply_under_an_older_set_is_asked_again",
        head: Head::Scanned,
        commands: b"\
            publish 2 5858\n\
            up 4\n\
            up 3\n\
            down 3\n\
            up 5\n\
            down 4\n\
            work 2\n\
            up 6\n",
        lines: b"\
            version 2 signatures 1\n\
            up 4 updated 2\n\
            down 3 scan 1.2 stream 1 generation 2 length 3\n\
            up 5 read 1.2 offset 0 count 3\n\
            down 4 chunk 1.2 offset 0 bytes 414243\n\
            work 2 lent 1.2 offset 0 length 3\n\
            up 6 reply 1.2 version 2 clean\n\
            open 1 granted stream 1 generation 2 version 2 least 0\n",
    },
    Row {
        name: "a_publication_makes_lent_work_an_orphan",
        head: Head::Connected,
        commands: b"\
            open a\n\
            down 1\n\
            up 2\n\
            down 2\n\
            publish 2 4142\n\
            work 1\n\
            up 4\n\
            down 3\n\
            work 2\n\
            up 5\n\
            work 1\n",
        lines: b"\
            open 1 pended\n\
            down 1 scan 1.1 stream 1 generation 2 length 3\n\
            up 2 read 1.1 offset 0 count 3\n\
            down 2 chunk 1.1 offset 0 bytes 414243\n\
            work 1 lent 1.1 offset 0 length 3\n\
            version 2 signatures 1\n\
            up 3 updated 2\n\
            up 4 read 1.1 offset 0 count 3\n\
            note Orphan\n\
            down 3 chunk 1.1 offset 0 bytes 414243\n\
            work 2 lent 1.1 offset 0 length 3\n\
            up 5 reply 1.1 version 2 infected 0 end 2\n\
            open 1 denied cause 2\n\
            refused NoSuchWork\n",
    },
    Row {
        name: "an_abort_overtakes_its_scan",
        head: Head::Connected,
        commands: b"\
            open a\n\
            write a 3 44\n\
            down 2\n\
            down 1\n\
            up 2\n\
            down 4\n\
            down 1\n\
            down 1\n\
            down 9\n",
        lines: b"\
            open 1 pended\n\
            down 1 scan 1.1 stream 1 generation 2 length 3\n\
            stream 1 generation 3 length 4\n\
            down 2 abort 1.1\n\
            down 3 scan 1.2 stream 1 generation 3 length 4\n\
            note Ignored\n\
            up 2 read 1.1 offset 0 count 3\n\
            down 4 nochunk 1.1 offset 0 cause 1\n\
            up 3 read 1.1 offset 0 count 3\n\
            note Repeat\n\
            refused NoSuchFrame\n",
    },
    Row {
        name: "a_scan_that_is_overtaken_nine_times_is_unsettled",
        head: Head::Connected,
        commands: b"\
            open a\n\
            write a 0 41\n\
            write a 0 41\n\
            write a 0 41\n\
            write a 0 41\n\
            write a 0 41\n\
            write a 0 41\n\
            write a 0 41\n\
            write a 0 41\n\
            write a 0 41\n",
        lines: b"\
            open 1 pended\n\
            down 1 scan 1.1 stream 1 generation 2 length 3\n\
            stream 1 generation 3 length 3\n\
            down 2 abort 1.1\n\
            down 3 scan 1.2 stream 1 generation 3 length 3\n\
            stream 1 generation 4 length 3\n\
            down 4 abort 1.2\n\
            down 5 scan 1.3 stream 1 generation 4 length 3\n\
            stream 1 generation 5 length 3\n\
            down 6 abort 1.3\n\
            down 7 scan 1.4 stream 1 generation 5 length 3\n\
            stream 1 generation 6 length 3\n\
            down 8 abort 1.4\n\
            down 9 scan 1.5 stream 1 generation 6 length 3\n\
            stream 1 generation 7 length 3\n\
            down 10 abort 1.5\n\
            down 11 scan 1.6 stream 1 generation 7 length 3\n\
            stream 1 generation 8 length 3\n\
            down 12 abort 1.6\n\
            down 13 scan 1.7 stream 1 generation 8 length 3\n\
            stream 1 generation 9 length 3\n\
            down 14 abort 1.7\n\
            down 15 scan 1.8 stream 1 generation 9 length 3\n\
            stream 1 generation 10 length 3\n\
            down 16 abort 1.8\n\
            down 17 scan 1.9 stream 1 generation 10 length 3\n\
            stream 1 generation 11 length 3\n\
            open 1 denied cause 8\n\
            down 18 abort 1.9\n",
    },
    Row {
        name: "a_generation_is_spent",
        head: Head::Nothing,
        commands: b"\
            limit generation 3\n\
            volume 1 closed\n\
            publish 1 43\n\
            create a\n\
            write a 0 41\n\
            write a 1 42\n\
            write a 0 43\n\
            cut a 0\n\
            judge a\n",
        lines: b"\
            boot 1\n\
            version 1 signatures 1\n\
            stream 1 generation 1\n\
            stream 1 generation 2 length 1\n\
            stream 1 generation 3 length 2\n\
            refused GenerationSpent\n\
            refused GenerationSpent\n\
            judge 1 generation 3 version 1 clean\n",
    },
    Row {
        name: "a_disconnection_denies_what_waits",
        head: Head::Connected,
        commands: b"\
            open a\n\
            disconnect filter\n\
            open a\n\
            open b\n\
            write b 0 41\n",
        lines: b"\
            open 1 pended\n\
            down 1 scan 1.1 stream 1 generation 2 length 3\n\
            open 1 denied cause 6\n\
            open 2 denied cause 3\n\
            open 3 denied cause 1\n\
            refused NoSuchName\n",
    },
    Row {
        name: "a_removal_denies_what_waits",
        head: Head::Connected,
        commands: b"\
            open a\n\
            remove a\n",
        lines: b"\
            open 1 pended\n\
            down 1 scan 1.1 stream 1 generation 2 length 3\n\
            removed 1\n\
            open 1 denied cause 9\n\
            down 2 abort 1.1\n",
    },
    Row {
        name: "a_cleanup_asks_before_any_open",
        head: Head::Connected,
        commands: b"\
            cleanup a\n\
            cleanup a\n\
            open a\n",
        lines: b"\
            down 1 scan 1.1 stream 1 generation 2 length 3\n\
            open 1 pended\n",
    },
    Row {
        name: "an_open_past_the_pended_limit_is_denied",
        head: Head::Nothing,
        commands: b"\
            limit pended 1\n\
            volume 1 closed\n\
            publish 1 5858\n\
            create a\n\
            write a 0 414243\n\
            connect\n\
            up 1\n\
            cleanup a\n\
            cleanup a\n\
            open a\n\
            open a\n",
        lines: b"\
            boot 1\n\
            version 1 signatures 1\n\
            stream 1 generation 1\n\
            stream 1 generation 2 length 3\n\
            up 1 hello volume 1 version 1\n\
            note Welcome\n\
            down 1 scan 1.1 stream 1 generation 2 length 3\n\
            open 1 pended\n\
            open 2 denied cause 4\n",
    },
    Row {
        name: "a_scan_past_the_jobs_limit_fails",
        head: Head::Nothing,
        commands: b"\
            limit jobs 1\n\
            volume 1 closed\n\
            publish 1 5858\n\
            create a\n\
            write a 0 414243\n\
            connect\n\
            up 1\n\
            create b\n\
            write b 0 41\n\
            open a\n\
            open b\n\
            down 1\n\
            down 2\n\
            up 3\n",
        lines: b"\
            boot 1\n\
            version 1 signatures 1\n\
            stream 1 generation 1\n\
            stream 1 generation 2 length 3\n\
            up 1 hello volume 1 version 1\n\
            note Welcome\n\
            stream 2 generation 1\n\
            stream 2 generation 2 length 1\n\
            open 1 pended\n\
            down 1 scan 1.1 stream 1 generation 2 length 3\n\
            open 2 pended\n\
            down 2 scan 1.2 stream 2 generation 2 length 1\n\
            up 2 read 1.1 offset 0 count 3\n\
            up 3 reply 1.2 failed 1\n\
            open 2 denied cause 7\n",
    },
    Row {
        name: "a_least_above_every_set_is_denied_in_the_end",
        head: Head::Connected,
        commands: b"\
            open a 9\n\
            down 1\n\
            up 2\n\
            down 2\n\
            work 1\n\
            up 3\n\
            down 3\n\
            up 4\n\
            down 4\n\
            up 5\n\
            down 5\n\
            up 6\n\
            down 6\n\
            up 7\n\
            down 7\n\
            up 8\n\
            down 8\n\
            up 9\n\
            down 9\n\
            up 10\n\
            down 10\n\
            up 11\n",
        lines: b"\
            open 1 pended\n\
            down 1 scan 1.1 stream 1 generation 2 length 3\n\
            up 2 read 1.1 offset 0 count 3\n\
            down 2 chunk 1.1 offset 0 bytes 414243\n\
            work 1 lent 1.1 offset 0 length 3\n\
            up 3 reply 1.1 version 1 clean\n\
            down 3 scan 1.2 stream 1 generation 2 length 3\n\
            up 4 reply 1.2 version 1 clean\n\
            down 4 scan 1.3 stream 1 generation 2 length 3\n\
            up 5 reply 1.3 version 1 clean\n\
            down 5 scan 1.4 stream 1 generation 2 length 3\n\
            up 6 reply 1.4 version 1 clean\n\
            down 6 scan 1.5 stream 1 generation 2 length 3\n\
            up 7 reply 1.5 version 1 clean\n\
            down 7 scan 1.6 stream 1 generation 2 length 3\n\
            up 8 reply 1.6 version 1 clean\n\
            down 8 scan 1.7 stream 1 generation 2 length 3\n\
            up 9 reply 1.7 version 1 clean\n\
            down 9 scan 1.8 stream 1 generation 2 length 3\n\
            up 10 reply 1.8 version 1 clean\n\
            down 10 scan 1.9 stream 1 generation 2 length 3\n\
            up 11 reply 1.9 version 1 clean\n\
            open 1 denied cause 8\n",
    },
    Row {
        name: "a_version_is_published_once",
        head: Head::Nothing,
        commands: b"\
            volume 1 closed\n\
            publish 7\n\
            publish 7\n",
        lines: b"\
            boot 1\n\
            version 7 signatures 0\n\
            refused OldVersion\n",
    },
    Row {
        name: "an_open_without_a_service_is_denied",
        head: Head::Nothing,
        commands: b"\
            volume 1 closed\n\
            publish 1 5858\n\
            create a\n\
            write a 0 414243\n\
            open a\n\
            open b\n\
            timeout 1\n\
            disconnect filter\n",
        lines: b"\
            boot 1\n\
            version 1 signatures 1\n\
            stream 1 generation 1\n\
            stream 1 generation 2 length 3\n\
            open 1 denied cause 3\n\
            open 2 denied cause 1\n\
            note NoWaiter\n",
    },
    Row {
        name: "an_open_without_a_service_is_let_through_in_fail_open_mode",
        head: Head::Nothing,
        commands: b"\
            volume 1 open\n\
            publish 1 5858\n\
            create a\n\
            write a 0 414243\n\
            open a\n\
            open b\n\
            timeout 1\n\
            disconnect filter\n",
        lines: b"\
            boot 1\n\
            version 1 signatures 1\n\
            stream 1 generation 1\n\
            stream 1 generation 2 length 3\n\
            open 1 unscanned stream 1 generation 2 cause 3\n\
            open 2 denied cause 1\n\
            note NoWaiter\n",
    },
    Row {
        name: "work_lent_before_a_publication_judges_nothing_after_it",
        head: Head::Connected,
        commands: b"\
            open a\n\
            down 1\n\
            up 2\n\
            down 2\n\
            publish 2 4142\n\
            up 4\n\
            down 3\n\
            work 1\n\
            work 2\n\
            up 5\n\
            work 1\n",
        lines: b"\
            open 1 pended\n\
            down 1 scan 1.1 stream 1 generation 2 length 3\n\
            up 2 read 1.1 offset 0 count 3\n\
            down 2 chunk 1.1 offset 0 bytes 414243\n\
            work 1 lent 1.1 offset 0 length 3\n\
            version 2 signatures 1\n\
            up 3 updated 2\n\
            up 4 read 1.1 offset 0 count 3\n\
            down 3 chunk 1.1 offset 0 bytes 414243\n\
            work 2 lent 1.1 offset 0 length 3\n\
            note Orphan\n\
            up 5 reply 1.1 version 2 infected 0 end 2\n\
            open 1 denied cause 2\n\
            refused NoSuchWork\n",
    },
    Row {
        name: "a_grant_does_not_outlast_a_write",
        head: Head::Scanned,
        commands: b"\
            up 3\n\
            open a\n\
            write a 0 5858\n\
            open a\n",
        lines: b"\
            open 1 granted stream 1 generation 2 version 1 least 0\n\
            open 2 granted stream 1 generation 2 version 1 least 0\n\
            stream 1 generation 3 length 3\n\
            open 3 pended\n\
            down 3 scan 1.2 stream 1 generation 3 length 3\n",
    },
    Row {
        name: "a_service_of_an_older_set_is_not_welcome",
        head: Head::Connected,
        commands: b"\
            publish 2\n\
            up 2\n\
            disconnect filter\n\
            up 1\n",
        lines: b"\
            version 2 signatures 0\n\
            up 2 updated 2\n\
            note OldVersion\n",
    },
];
