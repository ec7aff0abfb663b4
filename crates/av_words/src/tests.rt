use crate::sockets::bad_socket_of;
use crate::usage::{first_bad_word, say_usage};
use av_fakes::FakeWriter;
use std::env::{Env, FillError};
use std::test::Fail;

// A command line of these words.
#[derive(Drop)]
struct Words<'a> {
    words: &'a [&'a [u8]],
}

impl<'a> Env for Words<'a> {
    fn arg(&self, i: usize, buf: &mut [u8]) -> Result<usize, FillError> {
        let Some(word) = self.words.get(i) else {
            return Err(FillError::NotPresent);
        };
        if word.len() > buf.len() {
            return Err(FillError::TooLong);
        }
        buf[..word.len()].copy_from_slice(word);
        Ok(word.len())
    }

    fn var(&self, _name: &str, _buf: &mut [u8]) -> Result<usize, FillError> {
        Err(FillError::NotPresent)
    }

    fn var_at(&self, _i: usize, _buf: &mut [u8]) -> Result<usize, FillError> {
        Err(FillError::NotPresent)
    }
}

#[test]
fn the_first_word_that_is_no_text_is_named(rt: HostRuntime) -> Result<(), Fail> {
    let words: [&[u8]; 4] = [b"avscan", b"scan", b"caf\xe9", b"\xff"];
    let command_line = Words {
        words: words.as_slice(),
    };
    assert_eq!(rt; first_bad_word(&command_line, rt.alloc())?, Some(2));
    let texts = Words { words: &words[..2] };
    assert_eq!(rt; first_bad_word(&texts, rt.alloc())?, None);
    Ok(())
}

#[test]
fn a_usage_fault_is_the_first_paragraph_on_one_line(rt: HostRuntime) -> Result<(), Fail> {
    let rows: [(&str, &[u8]); 5] = [
        ("", b"(avguard --help tells more)\n"),
        (
            "error: no such word",
            b"no such word (avguard --help tells more)\n",
        ),
        (
            "error: two\n  lines \n\nUsage: more",
            b"two lines (avguard --help tells more)\n",
        ),
        ("a\n\nb", b"a (avguard --help tells more)\n"),
        ("a\nb\n", b"a b (avguard --help tells more)\n"),
    ];
    for (text, line) in rows {
        let mut err = FakeWriter::new(rt.alloc());
        say_usage(&mut err, "avguard", text);
        assert_eq!(rt; err.taken(), line);
    }
    Ok(())
}

#[test]
fn the_path_of_a_socket_has_1_to_107_bytes(rt: HostRuntime) -> Result<(), Fail> {
    let path = str::from_utf8(&[b'a'; 108]).unwrap_or("");
    assert_eq!(rt; bad_socket_of(""), Some(""));
    assert_eq!(rt; bad_socket_of("a"), None);
    assert_eq!(rt; bad_socket_of(path.get(..107).unwrap_or("")), None);
    assert_eq!(rt; bad_socket_of(path), Some(path));
    Ok(())
}
