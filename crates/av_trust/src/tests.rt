use crate::key::{Key, KeyFault};
use crate::mac::hmac_sha256;
use crate::signed::{sign, trusted};
use crate::trust::{Trust, TrustFault, text_of};
use av_fakes::{may_refuse, refuse_no_more};
use std::alloc::{AllocError, Global};
use std::test::Fail;

const KEY: &[u8; 32] = b"0123456789abcdef0123456789abcdef";

const OTHER: &[u8; 33] = b"0123456789abcdef0123456789abcdef0";

const TEXT: &[u8] = b"avsig 1\nversion 7\na 41\n";

// TEXT under KEY, by Python's hmac.
const SIGNED: &[u8] =
    b"avsigned 1 d0b1831dcb0896a7287d5f5349c9c82452163d327a439474f244e753ff44f752\navsig 1\nversion 7\na 41\n";

// No text under KEY.
const NOTHING: &[u8] =
    b"avsigned 1 796cd3078af14636753d26b3b5555422ff55a3e261cf847b48e95371b9bd0aa2\n";

// So many bytes of one value.
fn of(alloc: Global, byte: u8, count: usize) -> Result<Vec<u8>, AllocError> {
    vec![in alloc; byte; count]
}

// The code of a text, in hexadecimal.
fn code_of(alloc: Global, key: &[u8], text: &[u8]) -> Result<String, AllocError> {
    hex::encode(alloc, hmac_sha256(key, text))
}

// RFC 4231, 4.2 to 4.4, 4.7 and 4.8.
#[test]
fn the_code_of_a_text_is_that_of_the_standard(rt: HostRuntime) -> Result<(), Fail> {
    let alloc = rt.alloc();
    let short = of(alloc, 0x0b, 20)?;
    let middle = of(alloc, 0xaa, 20)?;
    let long = of(alloc, 0xaa, 131)?;
    let fifty = of(alloc, 0xdd, 50)?;
    let rows: [(&[u8], &[u8], &str); 5] = [
        (
            short.as_slice(),
            b"Hi There",
            "b0344c61d8db38535ca8afceaf0bf12b881dc200c9833da726e9376c2e32cff7",
        ),
        (
            b"Jefe",
            b"what do ya want for nothing?",
            "5bdcc146bf60754e6a042426089575c75a003f089d2739839dec58b964ec3843",
        ),
        (
            middle.as_slice(),
            fifty.as_slice(),
            "773ea91e36800e46854db8ebd09181a72959098b3ef8c122d9635514ced565fe",
        ),
        (
            long.as_slice(),
            b"Test Using Larger Than Block-Size Key - Hash Key First",
            "60e431591ee0b67f0d8a26aacbf5b77f8e0bc6213728c5140546040f0ee37f54",
        ),
        (
            long.as_slice(),
            b"This is a test using a larger than block-size key and a larger than block-size data. The key needs to be hashed before being used by the HMAC algorithm.",
            "9b09ffa71b942fcb27635fbcd5b0e944bfdc63644f0713938a7f51535c3a35e2",
        ),
    ];
    for (key, text, code) in rows {
        assert_eq!(&rt; code_of(alloc, key, text)?.as_str(), code);
    }
    Ok(())
}

#[test]
fn a_key_has_32_to_64_bytes(rt: HostRuntime) -> Result<(), Fail> {
    let alloc = rt.alloc();
    for (count, fault) in [
        (0, Some(KeyFault::TooShort)),
        (31, Some(KeyFault::TooShort)),
        (32, None),
        (64, None),
        (65, Some(KeyFault::TooLong)),
    ] {
        let bytes = of(alloc, 7, count)?;
        match Key::new(bytes.as_slice()) {
            Ok(key) => {
                assert!(&rt; fault.is_none(), "{count}");
                assert_eq!(&rt; key.bytes(), bytes.as_slice());
            }
            Err(met) => assert_eq!(&rt; Some(met), fault),
        }
    }
    Ok(())
}

#[test]
fn a_signed_file_is_one_line_and_the_text(rt: HostRuntime) -> Result<(), Fail> {
    let alloc = rt.alloc();
    let key = Key::new(KEY)?;
    for (text, file) in [(TEXT, SIGNED), (b"".as_slice(), NOTHING)] {
        let signed = sign(alloc, &key, text)?;
        assert_eq!(&rt; signed.as_slice(), file);
        assert_eq!(&rt; trusted(&key, file), Ok(text));
    }
    Ok(())
}

#[test]
fn a_file_is_taken_as_the_table_says(rt: HostRuntime) -> Result<(), Fail> {
    let key = Key::new(KEY)?;
    let other = Key::new(OTHER)?;
    let rows: [(Trust<'_>, &[u8], Result<&[u8], TrustFault>); 12] = [
        (Trust::Unsigned, TEXT, Ok(TEXT)),
        (Trust::Unsigned, b"", Ok(b"".as_slice())),
        (Trust::Unsigned, b"avsigne", Ok(b"avsigne".as_slice())),
        (Trust::Unsigned, b"avsigned", Err(TrustFault::NoKey)),
        (Trust::Unsigned, SIGNED, Err(TrustFault::NoKey)),
        (Trust::Signed(&key), SIGNED, Ok(TEXT)),
        (Trust::Signed(&key), TEXT, Err(TrustFault::NotSigned)),
        (Trust::Signed(&key), b"", Err(TrustFault::NotSigned)),
        (
            Trust::Signed(&key),
            b"avsigned 2 x\n",
            Err(TrustFault::BadLine),
        ),
        (Trust::Signed(&key), b"avsigned", Err(TrustFault::BadLine)),
        (Trust::Signed(&other), SIGNED, Err(TrustFault::OtherKey)),
        (Trust::Signed(&other), TEXT, Err(TrustFault::NotSigned)),
    ];
    for (trust, file, taken) in rows {
        assert!(&rt; text_of(trust, file) == taken);
    }
    Ok(())
}

#[test]
fn each_bit_of_a_signed_file_counts(rt: HostRuntime) -> Result<(), Fail> {
    let alloc = rt.alloc();
    let key = Key::new(KEY)?;
    let mut file = SIGNED.to_vec(alloc)?;
    for place in 0..file.len() {
        for bit in 0..8u32 {
            if let Some(byte) = file.get_mut(place) {
                *byte ^= 1u8 << bit;
            }
            assert!(&rt; trusted(&key, file.as_slice()).is_err(), "{place} {bit}");
            if let Some(byte) = file.get_mut(place) {
                *byte ^= 1u8 << bit;
            }
        }
    }
    assert!(rt; trusted(&key, file.as_slice()) == Ok(TEXT));
    Ok(())
}

#[test]
fn refused_sign(rt: HostRuntime) -> Result<(), Fail> {
    let alloc = rt.alloc();
    let key = Key::new(KEY)?;
    may_refuse(alloc);
    let first = sign(alloc, &key, TEXT);
    refuse_no_more(alloc);
    let file = match first {
        Ok(file) => file,
        Err(_) => sign(alloc, &key, TEXT)?,
    };
    assert_eq!(rt; file.as_slice(), SIGNED);
    Ok(())
}
