// Refusals as bytes.
use crate::refusal::{TurnedAway, put_refusal, refusal_in};
use av_base::Version;
use std::test::Fail;

#[test]
fn a_refusal_is_spelled_and_read(rt: HostRuntime) -> Result<(), Fail> {
    let rows = [
        (
            TurnedAway::Older(Version::new(258)),
            [0u8, 0, 0, 10, 255, 1, 0, 0, 0, 0, 0, 0, 1, 2],
        ),
        (
            TurnedAway::Above(Version::new(u64::MAX)),
            [0, 0, 0, 10, 255, 2, 255, 255, 255, 255, 255, 255, 255, 255],
        ),
        (
            TurnedAway::Full,
            [0, 0, 0, 10, 255, 3, 0, 0, 0, 0, 0, 0, 0, 0],
        ),
        (
            TurnedAway::OtherSocket,
            [0, 0, 0, 10, 255, 4, 0, 0, 0, 0, 0, 0, 0, 0],
        ),
    ];
    for (why, wanted) in rows.iter() {
        let mut out = Vec::new(rt.alloc());
        put_refusal(&mut out, *why)?;
        assert!(&rt; out.as_slice() == wanted.as_slice());
        assert!(&rt; refusal_in(&out) == Some(*why));
        assert!(&rt; refusal_in(&out[..13]).is_none());
        out.push(0)?;
        assert!(&rt; refusal_in(&out).is_none());
    }
    Ok(())
}

#[test]
fn other_frames_are_no_refusal(rt: HostRuntime) -> Result<(), Fail> {
    let rows = [
        [0u8, 0, 0, 10, 255, 0, 0, 0, 0, 0, 0, 0, 0, 0],
        [0, 0, 0, 10, 255, 5, 0, 0, 0, 0, 0, 0, 0, 0],
        [0, 0, 0, 10, 3, 1, 0, 0, 0, 0, 0, 0, 0, 0],
        [0, 0, 0, 11, 255, 1, 0, 0, 0, 0, 0, 0, 0, 0],
    ];
    for (place, row) in rows.iter().enumerate() {
        assert!(&rt; refusal_in(row.as_slice()).is_none(), "row {place}");
    }
    Ok(())
}
