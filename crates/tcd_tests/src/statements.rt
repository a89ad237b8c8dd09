//! The tokens of worked lines, and the rows that worked statements are.
use crate::asserts::{is_so, same};
use tc_isa::rows;
use tc_lex::{
    Piece, Scratch, Shape, Token, TokenKind, Value, is_token_kind, operands_into, token_text,
    tokens,
};
use tc_stmt::{is_source_name, row_of_statement, rule_broken_by_symbol, shape_index, wants};

static TOKENS: [Token; 13] = [
    Token {
        kind: TokenKind::Word,
        from: 0,
        to: 4,
    },
    Token {
        kind: TokenKind::Colon,
        from: 4,
        to: 5,
    },
    Token {
        kind: TokenKind::Word,
        from: 6,
        to: 10,
    },
    Token {
        kind: TokenKind::Word,
        from: 11,
        to: 13,
    },
    Token {
        kind: TokenKind::Comma,
        from: 13,
        to: 14,
    },
    Token {
        kind: TokenKind::Open,
        from: 15,
        to: 16,
    },
    Token {
        kind: TokenKind::Word,
        from: 16,
        to: 18,
    },
    Token {
        kind: TokenKind::Plus,
        from: 18,
        to: 19,
    },
    Token {
        kind: TokenKind::Close,
        from: 19,
        to: 20,
    },
    Token {
        kind: TokenKind::Number,
        from: 20,
        to: 24,
    },
    Token {
        kind: TokenKind::Word,
        from: 24,
        to: 25,
    },
    Token {
        kind: TokenKind::Minus,
        from: 26,
        to: 27,
    },
    Token {
        kind: TokenKind::Number,
        from: 27,
        to: 28,
    },
];

#[test]
fn tokens_of_a_line(rt: HostRuntime) {
    let line = b"loop: ld.w\td1, [a2+]0x1Fg -4 # 'end";
    let found = tokens(line).expect(&rt, "a line");
    same(&rt, &found.len(), &TOKENS.len());
    for (token, want) in found.iter().zip(&TOKENS) {
        is_so(
            &rt,
            token.kind == want.kind && token.from == want.from && token.to == want.to,
        );
    }
}

#[test]
fn places_of_faults(rt: HostRuntime) {
    same(&rt, &tokens(b"  ?").map(|_| ()), &Err(2));
    same(&rt, &tokens(b"0xg").map(|found| found.len()), &Ok(2));
    same(&rt, &tokens(&[b','; 64]).map(|found| found.len()), &Ok(64));
    same(&rt, &tokens(&[b','; 65]).map(|_| ()), &Err(64));
}

fn word(text: &str) -> Piece<'_> {
    Piece {
        kind: TokenKind::Word,
        text: text.as_bytes(),
    }
}

fn comma() -> Piece<'static> {
    Piece {
        kind: TokenKind::Comma,
        text: b",",
    }
}

#[test]
fn a_move_between_registers(rt: HostRuntime) {
    let pieces = [word("d1"), comma(), word("d2")];
    let mut scratch = Scratch::new();
    operands_into(&pieces, &mut scratch);
    let found = scratch.as_slice();
    same(&rt, &found.len(), &2);
    match row_of_statement(b"mov", found) {
        Ok((row, filled)) => {
            same(&rt, &row, &17);
            same(&rt, &filled.fields.c, &1);
            same(&rt, &filled.fields.s2, &2);
        }
        Err(rule) => same(&rt, &rule, &15),
    }
    match row_of_statement(b"mow", found) {
        Ok((row, _)) => same(&rt, &row, &255),
        Err(rule) => same(&rt, &rule, &2),
    }
}

#[test]
fn pieces_and_names(rt: HostRuntime) {
    let pieces = [word("d1"), comma()];
    is_so(&rt, is_token_kind(&pieces, 1, TokenKind::Comma));
    same(&rt, &token_text(&pieces, 0).len(), &2);
    is_so(&rt, is_source_name(b".text"));
    is_so(&rt, !is_source_name(b"."));
    same(&rt, &wants().len(), &rows().len());
    let lone = Value {
        shape: Shape::Word,
        name: b".",
        minus: false,
        size: 0,
        wide: false,
    };
    same(&rt, &rule_broken_by_symbol(&lone), &9);
    same(&rt, &shape_index(lone.shape), &2);
}
