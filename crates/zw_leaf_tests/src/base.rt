use std::alloc::Global;
use std::test::Fail;
use zw_base::{Fault, are_digits, are_plain, is_plain_word};

fn half(alloc: Global, number: u8) -> Result<Vec<u8>, Fault<u8>> {
    if number % 2 == 1 {
        return Err(Fault::Refused(number));
    }
    let mut halves = Vec::new(alloc);
    halves.push(number / 2)?;
    Ok(halves)
}

#[test]
fn a_fault_is_told(rt: HostRuntime) -> Result<(), Fail> {
    let fault = half(rt.alloc(), 3).err();
    assert!(rt; fault == Some(Fault::Refused(3)));
    assert!(rt; half(rt.alloc(), 4)?.len() == 1);
    Ok(())
}

#[test]
fn plain_words(rt: HostRuntime) -> Result<(), Fail> {
    for (word, plain, digits) in [
        ("a_1", true, false),
        ("1a", false, false),
        ("", false, true),
        ("19", false, true),
    ] {
        assert_eq!(rt; is_plain_word(word.as_bytes()), plain, "at {word}");
        assert_eq!(rt; are_digits(word.as_bytes()), digits, "at {word}");
        assert!(rt; are_plain(word.as_bytes()), "at {word}");
    }
    assert!(rt; !are_plain(b"A".as_slice()));
    Ok(())
}
