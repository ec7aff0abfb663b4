use crate::tests::rows::{Head, Row};

// Rows over two ports.
pub const PORT_ROWS: [Row; 7] = [
    Row {
        name: "the_question_of_a_lost_port_is_asked_on_the_other",
        head: Head::Connected,
        commands: b"\
            connect 2\n\
            up 2\n\
            open a\n\
            disconnect filter\n\
            down 2\n\
            up 3\n\
            down 3\n\
            work 1\n\
            up 4\n\
            down 1\n\
            up 5\n",
        lines: b"\
            up 2 hello volume 1 version 1 port 2\n\
            note Welcome\n\
            open 1 pended\n\
            down 1 scan 1.1 stream 1 generation 2 length 3\n\
            down 2 scan 1.2 stream 1 generation 2 length 3 port 2\n\
            up 3 read 1.2 offset 0 count 3 port 2\n\
            down 3 chunk 1.2 offset 0 bytes 414243 port 2\n\
            work 1 lent 1.2 offset 0 length 3 port 2\n\
            up 4 reply 1.2 version 1 clean port 2\n\
            open 1 granted stream 1 generation 2 version 1 least 0\n\
            up 5 read 1.1 offset 0 count 3\n\
            down 4 nochunk 1.1 offset 0 cause 1\n",
    },
    Row {
        name: "what_waits_is_denied_where_no_port_is_left",
        head: Head::Connected,
        commands: b"\
            connect 2\n\
            up 2\n\
            open a\n\
            disconnect filter 2\n\
            disconnect filter\n\
            open a\n",
        lines: b"\
            up 2 hello volume 1 version 1 port 2\n\
            note Welcome\n\
            open 1 pended\n\
            down 1 scan 1.1 stream 1 generation 2 length 3\n\
            open 1 denied cause 6\n\
            open 2 denied cause 3\n",
    },
    Row {
        name: "the_questions_of_a_lost_port_are_asked_in_the_order_of_their_numbers",
        head: Head::Connected,
        commands: b"\
            connect 2\n\
            up 2\n\
            create b\n\
            write b 0 5858\n\
            open a\n\
            open b\n\
            open a\n\
            disconnect filter\n\
            down 4\n\
            down 3\n\
            up 3\n\
            up 4\n\
            down 5\n\
            down 6\n\
            work 2\n\
            work 1\n\
            up 5\n\
            up 6\n",
        lines: b"\
            up 2 hello volume 1 version 1 port 2\n\
            note Welcome\n\
            stream 2 generation 1\n\
            stream 2 generation 2 length 2\n\
            open 1 pended\n\
            down 1 scan 1.1 stream 1 generation 2 length 3\n\
            open 2 pended\n\
            down 2 scan 1.2 stream 2 generation 2 length 2\n\
            open 3 pended\n\
            down 3 scan 1.3 stream 1 generation 2 length 3 port 2\n\
            down 4 scan 1.4 stream 2 generation 2 length 2 port 2\n\
            up 3 read 1.4 offset 0 count 2 port 2\n\
            up 4 read 1.3 offset 0 count 3 port 2\n\
            down 5 chunk 1.4 offset 0 bytes 5858 port 2\n\
            down 6 chunk 1.3 offset 0 bytes 414243 port 2\n\
            work 1 lent 1.4 offset 0 length 2 port 2\n\
            work 2 lent 1.3 offset 0 length 3 port 2\n\
            up 5 reply 1.3 version 1 clean port 2\n\
            up 6 reply 1.4 version 1 infected 0 end 2 port 2\n\
            open 1 granted stream 1 generation 2 version 1 least 0\n\
            open 3 granted stream 1 generation 2 version 1 least 0\n\
            open 2 denied cause 2\n",
    },
    Row {
        name: "three_questions_of_a_lost_port_are_asked_on_the_other",
        head: Head::Connected,
        commands: b"\
            connect 2\n\
            up 2\n\
            create b\n\
            create c\n\
            open a\n\
            open b\n\
            open c\n\
            disconnect filter\n\
            disconnect filter 2\n",
        lines: b"\
            up 2 hello volume 1 version 1 port 2\n\
            note Welcome\n\
            stream 2 generation 1\n\
            stream 3 generation 1\n\
            open 1 pended\n\
            down 1 scan 1.1 stream 1 generation 2 length 3\n\
            open 2 pended\n\
            down 2 scan 1.2 stream 2 generation 1 length 0\n\
            open 3 pended\n\
            down 3 scan 1.3 stream 3 generation 1 length 0\n\
            down 4 scan 1.4 stream 1 generation 2 length 3 port 2\n\
            down 5 scan 1.5 stream 2 generation 1 length 0 port 2\n\
            down 6 scan 1.6 stream 3 generation 1 length 0 port 2\n\
            open 1 denied cause 6\n\
            open 2 denied cause 6\n\
            open 3 denied cause 6\n",
    },
    Row {
        name: "a_late_reply_of_a_lost_port_finds_no_waiter",
        head: Head::Scanned,
        commands: b"\
            connect 2\n\
            up 4\n\
            disconnect filter\n\
            up 3\n\
            disconnect service\n\
            connect\n\
            up 5\n\
            up 3\n\
            down 3\n\
            up 6\n\
            down 4\n\
            work 2\n\
            up 7\n",
        lines: b"\
            up 4 hello volume 1 version 1 port 2\n\
            note Welcome\n\
            down 3 scan 1.2 stream 1 generation 2 length 3 port 2\n\
            note NoWaiter\n\
            up 5 hello volume 1 version 1\n\
            note Welcome\n\
            note NoWaiter\n\
            up 6 read 1.2 offset 0 count 3 port 2\n\
            down 4 chunk 1.2 offset 0 bytes 414243 port 2\n\
            work 2 lent 1.2 offset 0 length 3 port 2\n\
            up 7 reply 1.2 version 1 clean port 2\n\
            open 1 granted stream 1 generation 2 version 1 least 0\n",
    },
    Row {
        name: "a_set_is_told_to_both_services_and_to_that_of_port_one_first",
        head: Head::Nothing,
        commands: b"\
            volume 1 closed\n\
            publish 1 5858\n\
            create a\n\
            write a 0 414243\n\
            connect 2\n\
            up 1\n\
            open a\n\
            connect\n\
            up 2\n\
            down 1\n\
            publish 2 5858\n\
            up 3\n\
            up 6\n\
            down 2\n\
            publish 3 4142\n\
            up 7\n\
            work 1\n\
            up 9\n\
            down 3\n\
            work 2\n\
            up 10\n",
        lines: b"\
            boot 1\n\
            version 1 signatures 1\n\
            stream 1 generation 1\n\
            stream 1 generation 2 length 3\n\
            up 1 hello volume 1 version 1 port 2\n\
            note Welcome\n\
            open 1 pended\n\
            down 1 scan 1.1 stream 1 generation 2 length 3 port 2\n\
            up 2 hello volume 1 version 1\n\
            note Welcome\n\
            up 3 read 1.1 offset 0 count 3 port 2\n\
            version 2 signatures 1\n\
            up 4 updated 2\n\
            up 5 updated 2 port 2\n\
            up 6 read 1.1 offset 0 count 3 port 2\n\
            down 2 chunk 1.1 offset 0 bytes 414243 port 2\n\
            down 3 chunk 1.1 offset 0 bytes 414243 port 2\n\
            work 1 lent 1.1 offset 0 length 3 port 2\n\
            version 3 signatures 1\n\
            up 7 updated 3\n\
            up 8 updated 3 port 2\n\
            up 9 read 1.1 offset 0 count 3 port 2\n\
            note Orphan\n\
            down 4 chunk 1.1 offset 0 bytes 414243 port 2\n\
            work 2 lent 1.1 offset 0 length 3 port 2\n\
            up 10 reply 1.1 version 3 infected 0 end 2 port 2\n\
            open 1 denied cause 2\n",
    },
    Row {
        name: "each_service_connects_restarts_and_judges_by_itself",
        head: Head::Connected,
        commands: b"\
            connect 2\n\
            up 2\n\
            connect 2\n\
            restart service 2\n\
            connect 2\n\
            up 3\n\
            disconnect filter 2\n\
            up 3\n\
            disconnect service 2\n\
            open a\n\
            down 1\n\
            up 4\n\
            down 2\n\
            restart service\n\
            work 1\n\
            work 1\n\
            down 9\n\
            timeout 1\n",
        lines: b"\
            up 2 hello volume 1 version 1 port 2\n\
            note Welcome\n\
            refused AlreadyConnected\n\
            up 3 hello volume 1 version 1 port 2\n\
            note Connected\n\
            note Welcome\n\
            open 1 pended\n\
            down 1 scan 1.1 stream 1 generation 2 length 3\n\
            up 4 read 1.1 offset 0 count 3\n\
            down 2 chunk 1.1 offset 0 bytes 414243\n\
            work 1 lent 1.1 offset 0 length 3\n\
            note Orphan\n\
            refused NoSuchWork\n\
            refused NoSuchFrame\n\
            open 1 denied cause 5\n\
            down 3 abort 1.1\n",
    },
];
