// Frames from texts: a word is bytes in hexadecimal, or [n], which is n in eight bytes.
use std::alloc::Global;
use std::test::Fail;

// The bytes of these frames, one behind the other.
pub fn bytes_of(alloc: Global, frames: &[&str]) -> Result<Vec<u8>, Fail> {
    let mut bytes = Vec::new(alloc);
    put_frames(alloc, &mut bytes, frames)?;
    Ok(bytes)
}

fn put_frames(alloc: Global, bytes: &mut Vec<u8>, frames: &[&str]) -> Result<(), Fail> {
    for frame in frames {
        for word in frame.split(' ') {
            put_word(alloc, bytes, word)?;
        }
    }
    Ok(())
}

fn put_word(alloc: Global, bytes: &mut Vec<u8>, word: &str) -> Result<(), Fail> {
    match word
        .strip_prefix('[')
        .and_then(|rest| rest.strip_suffix(']'))
    {
        Some(number) => bytes.extend_from_slice(&number.parse::<u64>()?.to_be_bytes())?,
        None => bytes.extend_from_slice(&hex::decode(alloc, word)?)?,
    }
    Ok(())
}
