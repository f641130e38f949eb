use pj_lex::{LexFault, Symbol, Token, TokenKind, tokens};
use std::alloc::Global;
use std::process::Abort;
use std::test::*;

/// What a token is to be.
#[derive(Clone, Copy, Debug)]
enum Is<'a> {
    Word,
    Number(u64),
    Text(&'a [u8]),
    Sign(Symbol),
}

fn is_kind(kind: &TokenKind, wanted: Is<'_>) -> bool {
    match (kind, wanted) {
        (TokenKind::Word, Is::Word) => true,
        (TokenKind::Number(n), Is::Number(m)) => *n == m,
        (TokenKind::Text(text), Is::Text(bytes)) => text.as_slice() == bytes,
        (TokenKind::Symbol(symbol), Is::Sign(sign)) => *symbol == sign,
        _ => false,
    }
}

/// Whether the tokens are these, each with its offset and its end.
fn are_tokens(found: &[Token], wanted: &[(Is<'_>, usize, usize)]) -> bool {
    if found.len() != wanted.len() {
        return false;
    }
    for (token, (is, at, end)) in found.iter().zip(wanted) {
        if !is_kind(&token.kind, *is) || token.at != *at || token.end != *end {
            return false;
        }
    }
    true
}

fn expect_tokens(rt: &impl Abort, alloc: Global, body: &[u8], wanted: &[(Is<'_>, usize, usize)]) {
    match tokens(alloc, body) {
        Ok(found) => {
            assert!(rt;
                are_tokens(found.as_slice(), wanted),
                "other tokens than {wanted:?}"
            )
        }
        Err(fault) => assert!(rt; false, "{fault} in place of {wanted:?}"),
    }
}

#[test]
fn a_token_has_its_offset_and_its_end(rt: HostRuntime) {
    let alloc = rt.alloc();
    expect_tokens(&rt, alloc, b"", &[]);
    expect_tokens(&rt, alloc, b" \t\r ", &[]);
    expect_tokens(
        &rt,
        alloc,
        b"SELECT x",
        &[(Is::Word, 0, 6), (Is::Word, 7, 8)],
    );
    let sum = [
        (Is::Word, 1, 3),
        (Is::Sign(Symbol::Le), 3, 5),
        (Is::Number(7), 5, 8),
    ];
    expect_tokens(&rt, alloc, b" _9<=007\t", &sum);
    let most = [(Is::Number(u64::MAX), 0, 20)];
    expect_tokens(&rt, alloc, b"18446744073709551615", &most);
    let marks = [
        (Is::Sign(Symbol::Left), 0, 1),
        (Is::Sign(Symbol::Right), 1, 2),
        (Is::Sign(Symbol::Comma), 2, 3),
        (Is::Sign(Symbol::Semicolon), 3, 4),
        (Is::Sign(Symbol::Star), 4, 5),
        (Is::Sign(Symbol::Plus), 5, 6),
        (Is::Sign(Symbol::Percent), 6, 7),
    ];
    expect_tokens(&rt, alloc, b"(),;*+%", &marks);
    let compared = [
        (Is::Sign(Symbol::Le), 0, 2),
        (Is::Sign(Symbol::Ne), 3, 5),
        (Is::Sign(Symbol::Eq), 6, 8),
        (Is::Sign(Symbol::Ne), 9, 11),
        (Is::Sign(Symbol::Ge), 12, 14),
        (Is::Sign(Symbol::Lt), 15, 16),
        (Is::Sign(Symbol::Gt), 17, 18),
        (Is::Sign(Symbol::Eq), 19, 20),
    ];
    expect_tokens(&rt, alloc, b"<= <> == != >= < > =", &compared);
}

#[test]
fn a_text_is_the_bytes_that_it_stands_for(rt: HostRuntime) {
    let alloc = rt.alloc();
    let texts = [
        (Is::Text(b""), 0, 2),
        (Is::Text(b"a'b"), 3, 9),
        (Is::Text(b"\\'\t\n\r\0"), 10, 24),
        (Is::Text(b"\xff\n?"), 25, 30),
    ];
    expect_tokens(
        &rt,
        alloc,
        b"'' 'a''b' '\\\\\\'\\t\\n\\r\\0' '\xff\n?'",
        &texts,
    );
}

#[test]
fn a_bad_token_has_its_offset(rt: HostRuntime) {
    let cases: [(&[u8], usize); 16] = [
        (b"a ?", 2),
        (b"1a", 0),
        (b" 1_", 1),
        (b"18446744073709551616", 0),
        (
            b"00000000000000000000000000000000000018446744073709551616",
            0,
        ),
        (b"'a\\q'", 2),
        (b"'a\\", 2),
        (b"'abc", 0),
        (b"'a''", 0),
        (b"a 'b''c\\x", 7),
        (b"a!b", 1),
        (b"a\nb", 1),
        (b"\x80", 0),
        (b"a\xe9", 1),
        (b"a - b", 2),
        (b"\0", 0),
    ];
    for (body, at) in &cases {
        match tokens(rt.alloc(), *body) {
            Err(LexFault::BadToken { at: found }) => assert_eq!(rt; found, *at),
            _ => assert!(rt; false, "no bad token at {at}"),
        }
    }
}
