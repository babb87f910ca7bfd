//! Texts, names, references and numbers.
use crate::equal::equal;
use ode_value::{
    List, Name, OdeText, Ref, TextError, decimal, int_text, parse_decimal, parse_ref, ref_text,
};
use std::alloc::{AllocError, Global};
use std::test::Fail;

// Why there is no text of these bytes, or that they are its bytes.
fn text_of(alloc: Global, bytes: &[u8]) -> Result<bool, TextError> {
    let text = OdeText::new(alloc, bytes)?;
    Ok(text.as_bytes() == bytes)
}

const TEXTS: &[(&[u8], Result<bool, TextError>)] = &[
    (b"hi", Ok(true)),
    (b" ~", Ok(true)),
    (b"\x07", Err(TextError::BadByte { at: 0 })),
    (b"hi\x7F\x1F", Err(TextError::BadByte { at: 2 })),
    (b"\xC3", Err(TextError::BadByte { at: 0 })),
];

#[test]
fn texts_have_printable_bytes(rt: HostRuntime) {
    for (bytes, expected) in TEXTS {
        equal(
            &rt,
            &(*bytes, text_of(rt.alloc(), bytes)),
            &(*bytes, *expected),
        );
    }
}

// A byte, how many of them there are, and why they are no text.
type Long = (u8, usize, Result<bool, TextError>);

fn long(alloc: Global, byte: u8, length: usize) -> Result<Long, AllocError> {
    let bytes = vec![in alloc; byte; length]?;
    Ok((byte, length, text_of(alloc, &bytes)))
}

const LONG: &[Long] = &[
    (b'a', 2048, Ok(true)),
    (b'a', 2049, Err(TextError::TooLong)),
    (7, 2048, Err(TextError::BadByte { at: 0 })),
    (7, 2049, Err(TextError::TooLong)),
];

#[test]
fn the_length_of_a_text_is_tested_first(rt: HostRuntime) {
    for row in LONG {
        equal(&rt, &long(rt.alloc(), row.0, row.1), &Ok(*row));
    }
}

// Whether a reference is written as this text.
fn writes_ref(alloc: Global, reference: Ref, text: &str) -> Result<bool, AllocError> {
    Ok(ref_text(alloc, reference)?.as_slice() == text.as_bytes())
}

const NULL: Ref = Ref {
    object: 0,
    version: None,
};

const SEVEN: Ref = Ref {
    object: 7,
    version: None,
};

const SECOND: Ref = Ref {
    object: 7,
    version: Some(2),
};

const LAST: Ref = Ref {
    object: u64::MAX,
    version: Some(u32::MAX),
};

const REFERENCES: &[(&str, Ref)] = &[
    ("null", NULL),
    ("#7", SEVEN),
    ("#7@2", SECOND),
    ("#18446744073709551615@4294967295", LAST),
];

#[test]
fn references_are_read_and_written(rt: HostRuntime) {
    for (text, reference) in REFERENCES {
        let found = parse_ref(text.as_bytes());
        let is_written = writes_ref(rt.alloc(), *reference, text);
        equal(&rt, &(found, is_written), &(Some(*reference), Ok(true)));
    }
}

const NO_REFERENCES: &[&str] = &[
    "",
    "#",
    "7",
    "#0",
    "#07",
    "#7@",
    "#7@0",
    "#7@02",
    "#7@2@2",
    "#@2",
    "#7 ",
    " #7",
    "#-7",
    "#7a",
    "Null",
    "nul",
    "null@1",
    "#18446744073709551616",
    "#7@4294967296",
];

#[test]
fn other_texts_are_no_references(rt: HostRuntime) {
    for text in NO_REFERENCES {
        equal(&rt, &(*text, parse_ref(text.as_bytes())), &(*text, None));
    }
}

fn writes_decimal(alloc: Global, number: u64, text: &str) -> Result<bool, AllocError> {
    Ok(decimal(alloc, number)?.as_slice() == text.as_bytes())
}

const NUMBERS: &[(&str, u64)] = &[("0", 0), ("10", 10), ("18446744073709551615", u64::MAX)];

#[test]
fn numbers_are_read_and_written_in_decimal(rt: HostRuntime) {
    for (text, number) in NUMBERS {
        let found = parse_decimal(text.as_bytes());
        let is_written = writes_decimal(rt.alloc(), *number, text);
        equal(&rt, &(found, is_written), &(Some(*number), Ok(true)));
    }
}

const NO_NUMBERS: &[&str] = &["", "00", "01", "+1", "-1", "1a", "18446744073709551616"];

#[test]
fn other_texts_are_no_numbers(rt: HostRuntime) {
    for text in NO_NUMBERS {
        equal(
            &rt,
            &(*text, parse_decimal(text.as_bytes())),
            &(*text, None),
        );
    }
}

fn writes_int(alloc: Global, number: i64, text: &str) -> Result<bool, AllocError> {
    Ok(int_text(alloc, number)?.as_slice() == text.as_bytes())
}

const INTS: &[(&str, i64)] = &[
    ("0", 0),
    ("-1", -1),
    ("9223372036854775807", i64::MAX),
    ("-9223372036854775808", i64::MIN),
];

#[test]
fn numbers_with_signs_are_written_in_decimal(rt: HostRuntime) {
    for (text, number) in INTS {
        let is_written = writes_int(rt.alloc(), *number, text);
        equal(&rt, &(*text, is_written), &(*text, Ok(true)));
    }
}

// Whether there is a name of these bytes.
fn is_name(alloc: Global, bytes: &[u8]) -> Result<bool, TextError> {
    let text = OdeText::new(alloc, bytes)?;
    Ok(Name::new(text).is_some())
}

const NAMES: &[(&str, bool)] = &[
    ("a", true),
    ("_Z9", true),
    ("", false),
    ("a b", false),
    ("a-b", false),
    ("#7", false),
];

#[test]
fn names_have_letters_digits_and_underscores(rt: HostRuntime) {
    for (text, expected) in NAMES {
        let found = is_name(rt.alloc(), text.as_bytes());
        equal(&rt, &(*text, found), &(*text, Ok(*expected)));
    }
}

// Whether there is a name of so many letters.
fn is_long_name(alloc: Global, count: usize) -> Result<bool, AllocError> {
    let bytes = vec![in alloc; b'a'; count]?;
    Ok(is_name(alloc, &bytes) == Ok(true))
}

#[test]
fn names_have_1_to_64_bytes(rt: HostRuntime) {
    equal(&rt, &is_long_name(rt.alloc(), 64), &Ok(true));
    equal(&rt, &is_long_name(rt.alloc(), 65), &Ok(false));
}

// A list of these numbers.
fn list_of(alloc: Global, numbers: &[u8]) -> Result<List<u8>, AllocError> {
    let mut list = List::new(alloc);
    for number in numbers {
        list.push(*number)?;
    }
    Ok(list)
}

// The elements of a list, how many they are, and whether there is none.
fn shown(list: &List<u8>) -> (&[u8], usize, bool) {
    (list.as_slice(), list.len(), list.is_empty())
}

// Puts 2 between two elements, if there are two.
fn inserts(list: &mut List<u8>) -> Result<bool, AllocError> {
    if list.len() != 2 {
        return Ok(false);
    }
    list.insert(1, 2)?;
    Ok(true)
}

// Puts 9 in the place of the first of three elements, and removes the second.
fn sets_and_removes(list: &mut List<u8>) -> Option<u8> {
    if list.len() != 3 {
        return None;
    }
    list.set(0, 9);
    Some(list.remove(1))
}

#[test]
fn lists_take_elements_at_their_places(rt: HostRuntime) -> Result<(), Fail> {
    let mut list = list_of(rt.alloc(), &[1, 3])?;
    equal(&rt, &shown(&list), &([1, 3].as_slice(), 2, false));
    equal(&rt, &inserts(&mut list), &Ok(true));
    equal(&rt, &shown(&list), &([1, 2, 3].as_slice(), 3, false));
    equal(&rt, &sets_and_removes(&mut list), &Some(2));
    equal(&rt, &shown(&list), &([9, 3].as_slice(), 2, false));
    Ok(())
}
