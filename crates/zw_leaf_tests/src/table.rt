//! Tables, and which texts tell their keys.
use std::test::Fail;
use zw_table::{Table, arms, table};

#[derive(Clone, Copy, Debug, PartialEq)]
enum Word {
    And,
    Do,
}

fn and(sign: u8) -> u8 {
    sign
}

fn done(_sign: u8) -> u8 {
    b'd'
}

fn sign_of(word: Word, sign: u8) -> u8 {
    arms!(match word(sign) {
        Word::And => and,
        Word::Do => done
    })
}

/// A key, and the sign of its row, or zero where there is none.
const KEYS: &[(&str, u8)] = &[("and", b'a'), ("do", b'd'), ("", 0), ("a", 0), ("dog", 0)];

#[test]
fn a_table_finds_its_rows(rt: HostRuntime) -> Result<(), Fail> {
    let words = table!("and" => Word::And, "do" => Word::Do);
    assert!(rt; words.is_some());
    for (key, sign) in KEYS {
        let word = words.as_ref().and_then(|table| table.find(key));
        let found = word.map_or(0, |word| sign_of(*word, b'a'));
        let is_there = words.as_ref().is_some_and(|table| table.contains_key(key));
        assert!(rt; found == *sign && is_there == (found != 0), "at {key}");
    }
    Ok(())
}

/// A text, and whether it tells the keys of two rows.
const TEXTS: &[(&str, bool)] = &[
    ("a b", true),
    ("B a", true),
    ("z é", true),
    ("b a", false),
    ("a a", false),
    ("a", false),
    ("a b c", false),
    ("a  b", false),
    (" a", false),
    ("", false),
];

#[test]
fn keys_rise_strictly(rt: HostRuntime) -> Result<(), Fail> {
    for (keys, told) in TEXTS {
        assert!(rt; Table::of(keys, [1, 2]).is_some() == *told, "at {keys}");
    }
    let no_rows: [u8; 0] = [];
    assert!(rt; Table::of("", no_rows).is_some());
    Ok(())
}
