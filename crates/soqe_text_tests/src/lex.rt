//! Tables of texts, and the tokens that the rules give them.
use soqe_lex::{TokenKind, lexemes};
use soqe_name::{is_ordinary, is_ordinary_str};
use std::alloc::Global;
use std::fmt::Write;
use std::test::Fail;

/// The tokens of the text: of each the first letter of its kind and its two offsets, and behind `!` the offset that
/// stops them.
fn shown(alloc: Global, text: &[u8]) -> Result<String, Fail> {
    let found = lexemes(alloc, text)?;
    let mut out = String::new(alloc);
    let tokens = found.tokens.copy(alloc)?;
    for token in tokens.as_slice() {
        let kind = match token.kind {
            TokenKind::Ordinary => 'o',
            TokenKind::Keyword => 'k',
            TokenKind::Tagged => 't',
            TokenKind::Number => 'n',
            TokenKind::Mark => 'm',
        };
        write!(out, "{}{}-{} ", kind, token.start, token.end)?;
    }
    if let Some(stop) = found.stop {
        write!(out, "!{} ", stop)?;
    }
    Ok(out)
}

#[test]
fn signs_and_words(rt: HostRuntime) -> Result<(), Fail> {
    let cases: [(&[u8], &str); 12] = [
        (b"", ""),
        (b" \t\r\n", ""),
        (
            b"( ) [ ] < > . , : ; ~ & | -> <-> = != := =>",
            "m0-1 m2-3 m4-5 m6-7 m8-9 m10-11 m12-13 m14-15 m16-17 m18-19 m20-21 m22-23 m24-25 m26-28 m29-32 m33-34 m35-37 m38-40 m41-43 ",
        ),
        (
            b"true false all ex all2 ex2 lfp sort fun pred var goal rel prop nom axiom theory minimize vary level",
            "k0-4 k5-10 k11-14 k15-17 k18-22 k23-26 k27-30 k31-35 k36-39 k40-44 k45-48 k49-53 k54-57 k58-62 k63-66 k67-72 k73-79 k80-88 k89-93 k94-99 ",
        ),
        (
            b"x P1 a_b All all2x alls tru",
            "o0-1 o2-4 o5-8 o9-12 o13-18 o19-23 o24-27 ",
        ),
        (b"all x. P(x)", "k0-3 o4-5 m5-6 o7-8 m8-9 o9-10 m10-11 "),
        (b"::=", "m0-1 m1-3 "),
        (b"=>=", "m0-2 m2-3 "),
        (b"==>", "m0-1 m1-3 "),
        (b"!==", "m0-2 m2-3 "),
        (b"~~[a~]", "m0-1 m1-2 m2-3 o3-4 m4-5 m5-6 "),
        (b"a<->b", "o0-1 m1-4 o4-5 "),
    ];
    for (text, tokens) in cases {
        let found = shown(rt.alloc(), text)?;
        assert_eq!(rt; found.as_str(), tokens);
    }
    Ok(())
}

#[test]
fn numbers_and_tagged_names(rt: HostRuntime) -> Result<(), Fail> {
    let cases: [(&[u8], &str); 12] = [
        (b"0 7 10", "n0-1 n2-3 n4-6 "),
        (b"00", "n0-1 n1-2 "),
        (b"007", "n0-1 n1-2 n2-3 "),
        (b"1a", "n0-1 o1-2 "),
        (b"18446744073709551615", "n0-20 "),
        (b"18446744073709551616", "n0-19 n19-20 "),
        (b"_0 _p7 _f12 _n3", "t0-2 t3-6 t7-11 t12-15 "),
        (b"_00", "t0-2 n2-3 "),
        (b"_p01", "t0-3 n3-4 "),
        (b"_18446744073709551615", "t0-21 "),
        (b"_18446744073709551616", "t0-20 n20-21 "),
        (b"_n18446744073709551616", "t0-21 n21-22 "),
    ];
    for (text, tokens) in cases {
        let found = shown(rt.alloc(), text)?;
        assert_eq!(rt; found.as_str(), tokens);
    }
    Ok(())
}

#[test]
fn comments(rt: HostRuntime) -> Result<(), Fail> {
    let cases: [(&[u8], &str); 8] = [
        (b"a # b", "o0-1 "),
        (b"a #b\n", "o0-1 "),
        (b"a #b\nc", "o0-1 o5-6 "),
        (b"#\n;", "m2-3 "),
        (b"a#b\rc", "o0-1 "),
        (b"#!\x00\x7f\n;", "m5-6 "),
        (b"a #b\x80c\nd", "o0-1 !4 "),
        (b"#\x80", "!1 "),
    ];
    for (text, tokens) in cases {
        let found = shown(rt.alloc(), text)?;
        assert_eq!(rt; found.as_str(), tokens);
    }
    Ok(())
}

#[test]
fn bytes_that_begin_no_token(rt: HostRuntime) -> Result<(), Fail> {
    let cases: [(&[u8], &str); 14] = [
        (b"a\x80", "o0-1 !1 "),
        (b"a \x00b", "o0-1 !2 "),
        (b"\x7f", "!0 "),
        (b"\x0b", "!0 "),
        (b"!", "!0 "),
        (b"a! =", "o0-1 !1 "),
        (b"-", "!0 "),
        (b"<-", "m0-1 !1 "),
        (b"<-->", "m0-1 !1 "),
        (b"_", "!0 "),
        (b"_x", "!0 "),
        (b"a _p", "o0-1 !2 "),
        (b"_px", "!0 "),
        (b"_P1", "!0 "),
    ];
    for (text, tokens) in cases {
        let found = shown(rt.alloc(), text)?;
        assert_eq!(rt; found.as_str(), tokens);
    }
    Ok(())
}

#[test]
fn ordinary_names(rt: HostRuntime) -> Result<(), Fail> {
    let cases = [
        ("x", true),
        ("P_1", true),
        ("all2x", true),
        ("levels", true),
        ("", false),
        ("all2", false),
        ("level", false),
        ("1x", false),
        ("_x", false),
        ("a-b", false),
        ("a ", false),
    ];
    for (name, want) in cases {
        assert_eq!(rt; is_ordinary_str(name), want, "at {name}");
        assert_eq!(rt; is_ordinary(name.as_bytes()), want, "at {name}");
    }
    Ok(())
}
