//! Tokens.
use crate::equal::equal;
use ode_lex::{LexError, Mark, Token, TokenKind, slice_of, tokens};
use ode_value::{List, Ref};
use std::alloc::{AllocError, Global};
use std::process::Abort;

fn lexed(alloc: Global, text: &[u8]) -> Result<List<Token>, LexError> {
    if text.len() >= 10_000 {
        return Err(LexError::Memory);
    }
    tokens(alloc, text)
}

// A token as data: its kind, its start and its end.
type Row = (TokenKind, u32, u32);

fn are(found: &[Token], expected: &[Row]) -> bool {
    for (token, row) in found.iter().zip(expected) {
        if (token.kind, token.start, token.end) != *row {
            return false;
        }
    }
    found.len() == expected.len()
}

// Whether a text has these tokens.
fn has_tokens(alloc: Global, text: &[u8], expected: &[Row]) -> Result<bool, LexError> {
    let found = lexed(alloc, text)?;
    Ok(are(found.as_slice(), expected))
}

// Each of the texts has its tokens.
fn each_has(rt: &impl Abort, alloc: Global, texts: &[(&str, &[Row])]) {
    for (text, expected) in texts {
        let found = has_tokens(alloc, text.as_bytes(), expected);
        equal(rt, &(*text, found), &(*text, Ok(true)));
    }
}

// The first byte of a text that begins no token.
fn no_token(alloc: Global, text: &[u8]) -> Option<u32> {
    match lexed(alloc, text) {
        Err(LexError::NoToken { at }) => Some(at),
        _ => None,
    }
}

const SPANS: &[(&str, &[Row])] = &[(
    "a = 1;",
    &[
        (TokenKind::Word, 0, 1),
        (TokenKind::Mark(Mark::Assign), 2, 3),
        (TokenKind::Number(1), 4, 5),
        (TokenKind::Mark(Mark::Semi), 5, 6),
    ],
)];

#[test]
fn tokens_have_their_spans(rt: HostRuntime) {
    each_has(&rt, rt.alloc(), SPANS);
}

const MARKS: &[(&str, Mark)] = &[
    ("{", Mark::OpenBrace),
    ("}", Mark::CloseBrace),
    ("(", Mark::OpenParen),
    (")", Mark::CloseParen),
    (";", Mark::Semi),
    (",", Mark::Comma),
    (".", Mark::Dot),
    (":", Mark::Colon),
    ("=", Mark::Assign),
    ("==", Mark::Equal),
    ("!=", Mark::NotEqual),
    ("<", Mark::Less),
    ("<=", Mark::LessEqual),
    (">", Mark::Greater),
    (">=", Mark::GreaterEqual),
    ("+", Mark::Plus),
    ("-", Mark::Minus),
    ("*", Mark::Star),
    ("/", Mark::Slash),
    ("%", Mark::Percent),
    ("!", Mark::Not),
    ("&&", Mark::AndAnd),
    ("||", Mark::OrOr),
    ("==>", Mark::Arrow),
];

#[test]
fn each_mark_is_a_token(rt: HostRuntime) {
    for (text, mark) in MARKS {
        let end = text.len().min(3) as u32;
        let expected = [(TokenKind::Mark(*mark), 0, end)];
        let found = has_tokens(rt.alloc(), text.as_bytes(), &expected);
        equal(&rt, &(*text, found), &(*text, Ok(true)));
    }
}

const SEVEN: Ref = Ref {
    object: 7,
    version: None,
};

const SECOND: Ref = Ref {
    object: 7,
    version: Some(2),
};

const LONGEST: &[(&str, &[Row])] = &[
    (
        "==>>===",
        &[
            (TokenKind::Mark(Mark::Arrow), 0, 3),
            (TokenKind::Mark(Mark::GreaterEqual), 3, 5),
            (TokenKind::Mark(Mark::Equal), 5, 7),
        ],
    ),
    (
        "#7abc #7@2",
        &[
            (TokenKind::Reference(SEVEN), 0, 2),
            (TokenKind::Word, 2, 5),
            (TokenKind::Reference(SECOND), 6, 10),
        ],
    ),
];

#[test]
fn the_longest_token_is_taken(rt: HostRuntime) {
    each_has(&rt, rt.alloc(), LONGEST);
}

const WORDS: &[(&str, &[Row])] = &[
    (
        "0 9223372036854775807",
        &[
            (TokenKind::Number(0), 0, 1),
            (TokenKind::Number(i64::MAX), 2, 21),
        ],
    ),
    (
        "\"\"\"a\\\"b\\\\;\"",
        &[(TokenKind::Text, 0, 2), (TokenKind::Text, 2, 11)],
    ),
    (
        "_a1B\t// b\r\n\n_",
        &[(TokenKind::Word, 0, 4), (TokenKind::Word, 12, 13)],
    ),
];

#[test]
fn words_numbers_and_texts_are_tokens(rt: HostRuntime) {
    each_has(&rt, rt.alloc(), WORDS);
}

const NO_TOKENS: &[(&str, u32)] = &[
    ("a $", 2),
    ("$", 0),
    ("a = 007;", 4),
    ("12a", 0),
    ("9223372036854775808", 0),
    ("#0", 0),
    ("#07", 0),
    ("#", 0),
    ("#18446744073709551616", 0),
    ("#7@", 2),
    ("#7@0", 2),
    ("#7@02", 2),
    ("#7@4294967296", 2),
    ("\"a", 0),
    ("\"a\nb\"", 0),
    ("\"\\n\"", 0),
    ("x \"\u{7f}\"", 2),
    ("a & b", 2),
    ("a | b", 2),
    ("\u{b}", 0),
];

#[test]
fn the_first_byte_that_begins_no_token_is_told(rt: HostRuntime) {
    for (text, at) in NO_TOKENS {
        let found = no_token(rt.alloc(), text.as_bytes());
        equal(&rt, &(*text, found), &(*text, Some(*at)));
    }
}

// A text of so many letters in quotes, or a word of them.
fn letters(alloc: Global, count: usize, quoted: bool) -> Result<Vec<u8>, AllocError> {
    let mut bytes = vec![in alloc; b'a'; count]?;
    if quoted {
        bytes.insert(0, b'"')?;
        bytes.push(b'"')?;
    }
    Ok(bytes)
}

fn is_one(alloc: Global, bytes: &[u8], quoted: bool) -> Result<bool, LexError> {
    let kind = if quoted {
        TokenKind::Text
    } else {
        TokenKind::Word
    };
    let length = u32::try_from(bytes.len()).unwrap_or(u32::MAX);
    has_tokens(alloc, bytes, &[(kind, 0, length)])
}

// Whether so many letters are one token.
fn are_one(alloc: Global, count: usize, quoted: bool) -> Result<bool, LexError> {
    let bytes = letters(alloc, count, quoted)?;
    is_one(alloc, &bytes, quoted)
}

const LONG: &[(usize, bool, Result<bool, LexError>)] = &[
    (64, false, Ok(true)),
    (65, false, Err(LexError::NoToken { at: 0 })),
    (2048, true, Ok(true)),
    (2049, true, Err(LexError::NoToken { at: 0 })),
];

#[test]
fn words_have_at_most_64_bytes_and_texts_2048(rt: HostRuntime) {
    for (count, quoted, expected) in LONG {
        let found = are_one(rt.alloc(), *count, *quoted);
        equal(&rt, &(*count, found), &(*count, *expected));
    }
}

const SLICES: &[(u32, u32, &str)] = &[
    (0, 4, "show"),
    (5, 7, "#7"),
    (9, 10, ";"),
    (9, 12, ";"),
    (20, 30, ""),
];

fn has_slice(start: u32, end: u32, bytes: &[u8]) -> bool {
    let kind = TokenKind::Word;
    slice_of(b"show #7.n;", Token { kind, start, end }) == bytes
}

#[test]
fn a_token_has_its_bytes(rt: HostRuntime) {
    for (start, end, text) in SLICES {
        let found = has_slice(*start, *end, text.as_bytes());
        equal(&rt, &(*start, *end, found), &(*start, *end, true));
    }
}
