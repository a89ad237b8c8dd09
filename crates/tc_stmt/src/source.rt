// Reads a source line by line.
ghost use Rattle.std.specs.Prelude.{◌≡◌, ◌≤◌, ◌<◌, ◌+◌, ◌++◌, List, [], ◌∷◌, map, length, position, take, drop, IfOk, OnOk, IfSome, ◌==◌};
ghost use Rattle.tc_stmt.specs.Items.{item_of};
ghost use Rattle.tc_stmt.specs.Lines.{LineData, line_of_text, lines_in, items_in};
ghost use Rattle.tc_stmt.specs.SourceViews.{source_lines, AreReadLines};

use crate::item::Item;
use crate::line_reader::read_line;
use memchr::memchr;
use std::alloc::{AllocError, Global};
use tc_lex::{Operand, Piece, Scratch};

/// A line of a source: the least rule that it breaks by itself, or `NO_RULE`, and the number of its
/// items.
#[derive(Clone, Copy)]
pub struct Line {
    /// The least rule that the line breaks by itself, or `NO_RULE`.
    pub rule: u8,
    /// The number of items of the line.
    pub count: u8,
}

/// A source: its lines, and the items of all lines in order.
#[derive(Drop)]
pub struct Source<'a> {
    /// The lines, in order.
    pub lines: Vec<Line>,
    /// The items of all lines, in order.
    pub items: Vec<Item<'a>>,
}

/// Parses an assembler source into its items: labels, directives, instructions and data. Each line
/// has its number of items and the rule that the line breaks by itself.
pub fn read_source<'a>(alloc: Global, source: &'a [u8]) -> Result<Source<'a>, AllocError>
    ensures lines { IfOk result (λ s. source_lines s ≡ lines_in source.now) }
    ensures items { IfOk result (λ s. map item_of s.items.items ≡ items_in (lines_in source.now)) }
{
    let mut pieces = Scratch::new();
    let mut operands = Scratch::new();
    let mut lines = Vec::new(alloc);
    let mut items = Vec::new(alloc);
    let mut rest = source;
    'lines: while let Some(i) = next_line_feed(rest) {
        let line = line_before_feed(rest, i);
        add_source_line(line, &mut pieces, &mut operands, &mut lines, &mut items)?;
        rest = source_after_feed(rest, i);
    }
    add_source_line(rest, &mut pieces, &mut operands, &mut lines, &mut items)?;
    Ok(Source { lines, items })
}

// The index of the first line feed in the rest of a source, or `None` if there is none.
#[inline(always)]
#[tactic(auto, using(crate::proofs::Feeds::first_byte))]
fn next_line_feed(rest: &[u8]) -> Option<usize>
    ensures value { result ≡ position (λ c. c == 10) rest.now }
    ensures within { IfSome result (λ i. i < length rest.now) }
{
    if !rest.is_empty() && rest[0] == b'\n' {
        return Some(0);
    }
    memchr(b'\n', rest)
}

/// The line at the start of the rest of a source, up to the line feed at `i`.
fn line_before_feed(rest: &[u8], i: usize) -> &[u8]
    requires { i ≤ length rest.now }
    ensures { result.now ≡ take i rest.now }
{
    &rest[..i]
}

// Reads the next line of a source, and adds the line to `lines` and what it contains to `items`.
// `pieces` and `operands` are scratch space.
#[inline(always)]
fn add_source_line<'a>(
    line: &'a [u8],
    pieces: &mut Scratch<Piece<'a>, 64>,
    operands: &mut Scratch<Operand<'a>, 65>,
    lines: &mut Vec<Line>,
    items: &mut Vec<Item<'a>>,
) -> Result<(), AllocError>
    ensures { OnOk result ((ls : List LineData) → AreReadLines lines.old.items items.old.items ls
        → AreReadLines lines.new.items items.new.items (ls ++ line_of_text line.now ∷ [])) }
{
    lines.push(read_line(line, pieces, operands, items)?)?;
    Ok(())
}

/// The rest of the source after the line feed at `i`.
fn source_after_feed(rest: &[u8], i: usize) -> &[u8]
    requires { i < length rest.now }
    ensures { result.now ≡ drop (i + 1) rest.now }
{
    &rest[i + 1..]
}
