//! Keys: as the tests write them, and their worked rows.

ghost use Rattle.std.specs.Prelude.{◌≡◌};
ghost use Rattle.std.specs.Int.{w64, to_be_bytes};
ghost use Rattle.ib_map.specs.KeyBytes.{bytes_of};

use ib_map::{Key, LongKey, after, is_below, is_same};
use std::test::Fail;

// The key of a number.
pub(crate) fn key(number: u64) -> Key
    ensures { bytes_of result ≡ to_be_bytes w64 number }
{
    Key::of_number(number)
}

// Whether these are the bytes of a key.
fn has_bytes(key: Key, bytes: &[u8]) -> bool {
    if key.len() != bytes.len() {
        return false;
    }
    for place in 0..key.len() {
        if bytes.get(place) != Some(&key.byte(place)) {
            return false;
        }
    }
    true
}

#[test]
fn the_key_of_a_number(rt: HostRuntime) -> Result<(), Fail> {
    let ten = key(10);
    assert_eq!(rt; ten.words(), (10, 8));
    assert!(rt; has_bytes(ten, &[0, 0, 0, 0, 0, 0, 0, 10]));
    assert_eq!(rt; Key::from_words(10, 8), Some(ten));
    assert_eq!(rt; Key::from_bytes(&[0, 0, 0, 0, 0, 0, 0, 10]), Ok(ten));
    Ok(())
}

#[test]
fn the_next_key(rt: HostRuntime) -> Result<(), Fail> {
    assert_eq!(rt; after(key(10)), Key::from_words(10, 9));
    let zeros_and_255 = Key::from_bytes(b"\0\0\0\0\0\0\0\0\0\0\0\0\0\0\xff")?;
    let zeros_and_1 = Key::from_bytes(b"\0\0\0\0\0\0\0\0\0\0\0\0\0\x01")?;
    assert_eq!(rt; after(zeros_and_255), Some(zeros_and_1));
    // The carry goes from the second word into the first one.
    let front = Key::from_bytes(b"1234567\x08\xff\xff\xff\xff\xff\xff\xff")?;
    assert_eq!(rt; after(front), Some(Key::from_bytes(b"1234567\x09")?));
    assert_eq!(rt; after(Key::least()), Some(Key::from_bytes(b"\0")?));
    assert_eq!(rt; after(Key::greatest()), None);
    Ok(())
}

#[test]
fn a_key_has_15_bytes_at_most(rt: HostRuntime) -> Result<(), Fail> {
    assert_eq!(rt; Key::from_bytes(&[0; 16]), Err(LongKey { len: 16 }));
    assert_eq!(rt; Key::from_bytes(&[0; 15])?.len(), 15);
    assert_eq!(rt; Key::from_bytes(&[255; 15]), Ok(Key::greatest()));
    assert_eq!(rt; Key::from_bytes(&[]), Ok(Key::least()));
    assert!(rt; has_bytes(Key::greatest(), &[255; 15]));
    assert!(rt; has_bytes(Key::least(), &[]));
    Ok(())
}

#[test]
fn words_of_a_key(rt: HostRuntime) -> Result<(), Fail> {
    let bytes = b"0123456789abcde";
    let key = Key::from_bytes(bytes)?;
    assert_eq!(rt; key.words(), (0x3031_3233_3435_3637, 0x3839_6162_6364_650f));
    assert!(rt; has_bytes(key, bytes));
    assert_eq!(rt; Key::from_bytes(b"10")?.words(), (0x3130_0000_0000_0000, 2));
    assert_eq!(rt; Key::least().words(), (0, 0));
    assert_eq!(rt; Key::greatest().words(), (u64::MAX, 0xffff_ffff_ffff_ff0f));
    Ok(())
}

#[test]
fn words_of_no_key(rt: HostRuntime) {
    assert_eq!(rt; Key::from_words(0, 16), None);
    assert_eq!(rt; Key::from_words(u64::MAX, u64::MAX), None);
    // A byte behind the last one that is not 0: the first, the second, the eighth, the ninth and the fifteenth.
    assert_eq!(rt; Key::from_words(1 << 56, 0), None);
    assert_eq!(rt; Key::from_words(0x3130_0000_0000_0000, 1), None);
    assert_eq!(rt; Key::from_words(1, 7), None);
    assert_eq!(rt; Key::from_words(10, 8 | 1 << 56), None);
    assert_eq!(rt; Key::from_words(10, 14 | 1 << 8), None);
    assert_eq!(rt;
        Key::from_words(10, 15 | 1 << 8).map(|key| key.len()),
        Some(15)
    );
}

#[test]
fn keys_are_in_the_order_of_their_bytes(rt: HostRuntime) -> Result<(), Fail> {
    let rows: [&[u8]; 14] = [
        b"",
        b"\0",
        b"\0\0",
        b"\0\0\0\0\0\0\0\0\0\0\0\0\0\0\0",
        b"\0\0\0\0\0\0\0\0\0\0\0\0\0\0\xff",
        b"\0\x01",
        b"1",
        b"10",
        b"100",
        b"11",
        b"12345678",
        b"123456789",
        b"2",
        b"\xff\xff\xff\xff\xff\xff\xff\xff\xff\xff\xff\xff\xff\xff\xff",
    ];
    for low in 0..rows.len() {
        let one = Key::from_bytes(rows[low])?;
        assert!(rt; has_bytes(one, rows[low]));
        for high in 0..rows.len() {
            let other = Key::from_bytes(rows[high])?;
            assert_eq!(rt; is_below(one, other), low < high);
            assert_eq!(rt; is_same(one, other), low == high);
        }
    }
    Ok(())
}
