// Assembles a source in two passes: first for its symbols, then for its bytes.
ghost use Rattle.std.specs.Prelude.{◌≡◌, ◌≤◌, ◌<◌, ◌^◌, ◌&&◌, if◌then◌else◌, All, true, map, length, IfOk, OnOk, IfErr, fold, take, drop, []};
ghost use Rattle.tc_stmt.specs.Items.{item_of};
ghost use Rattle.tc_stmt.specs.Lines.{lines_in, items_in};
ghost use Rattle.tc_asm.specs.ItemInvariants.{IsItemOfSomeLine};
ghost use Rattle.tc_asm.specs.Drafts.{empty_draft, draft_after_item};
ghost use Rattle.tc_asm.specs.DraftedSources.{draft_from_lines, draft_in, symbols_of_lines};
ghost use Rattle.tc_asm.specs.Rules.{AllLinesKeepRules, IsFirstBadLine};
ghost use Rattle.tc_asm.specs.KnownSymbols.{without_symbols_if, are_new_with_room};
ghost use Rattle.tc_asm.specs.Objects.{object_of_draft};
ghost use Rattle.tc_asm.specs.Errors.{IfBadLine};
ghost use Rattle.tc_asm.specs.DraftInvariants.{IsWellFormedDraft};
ghost use Rattle.tc_stmt.specs.SourceViews.{source_lines};

use crate::AsmErr;
use crate::draft::Draft;
use crate::finished_object::emit_object;
use crate::put_checked_items::check_and_add_items;
use crate::symbols::Symbols;
use std::alloc::{AllocError, Global};
use tc_object::Object;
use tc_stmt::{Item, NO_RULE, Source, read_source};

/// Assembles a source in two passes: returns its object, or the first line that breaks a rule,
/// counted from 1, with the lowest-numbered rule there.
pub fn assemble(alloc: Global, source: &[u8]) -> Result<Object, AsmErr>
    requires { length source.now ≤ 2 ^ 30 }
    ensures ok { IfOk result (λ o. o ≡ object_of_draft (draft_in source.now)) }
    ensures kept { OnOk result (AllLinesKeepRules (lines_in source.now)) }
    ensures bad { IfErr result (IfBadLine (IsFirstBadLine (lines_in source.now))) }
{
    let read = read_source(alloc, source)?;
    // The symbols of all items don't depend on the targets of jumps.
    let mut first = Draft::new(alloc);
    let known = scan_items(alloc, &mut first, &read.items)?;
    let labels = first.symbols;
    let draft = draft_of_lines(alloc, &labels, known, &read)?;
    Ok(emit_object(alloc, draft_with_known_symbols(draft, known, labels))?)
}

// Runs the assembler's second pass: returns the draft of all lines, or the first line that breaks a
// rule. If `known`, the first pass found all symbols, `labels`, and none is added.
fn draft_of_lines<'a>(
    alloc: Global,
    labels: &Symbols<'a>,
    known: bool,
    source: &Source<'a>,
) -> Result<Draft<'a>, AsmErr>
    requires few { length source.now.lines.items < 2 ^ 32 }
    requires labels { labels.now ≡ symbols_of_lines (source_lines source.now) }
    requires known { known ≡ true
        → are_new_with_room labels.now empty_draft (items_in (source_lines source.now)) ≡ true }
    ensures ok { IfOk result (λ d. without_symbols_if known d
        ≡ without_symbols_if known (draft_from_lines labels.now (source_lines source.now))) }
    ensures rules { OnOk result (AllLinesKeepRules (source_lines source.now)) }
    ensures whole { OnOk result
        (IsWellFormedDraft (draft_from_lines labels.now (source_lines source.now))) }
    ensures bad { IfErr result (IfBadLine (IsFirstBadLine (source_lines source.now))) }
{
    let mut draft = Draft::new(alloc);
    let lines = source.lines.as_slice();
    let mut rest = source.items.as_slice();
    for i in 0..lines.len() {
        let line = lines[i];
        if line.count == 0 && line.rule == NO_RULE {
            continue;
        }
        let first = first_items(rest, line.count);
        let found = check_and_add_items(alloc, &mut draft, labels, known, first)?;
        let rule = line.rule.min(found);
        if rule != NO_RULE {
            return Err(AsmErr::Bad {
                line: (i + 1) as u32,
                rule,
            });
        }
        rest = later_items(rest, line.count);
    }
    Ok(draft)
}

// Returns the finished draft of an object. If `known`, the second pass added no symbols, and those
// of the first pass are put in.
fn draft_with_known_symbols<'a>(draft: Draft<'a>, known: bool, symbols: Symbols<'a>) -> Draft<'a>
    ensures { result
        ≡ (if known then record draft.entry { symbols = symbols.entry } else draft.entry) }
{
    if !known {
        return draft;
    }
    Draft {
        section: draft.section,
        parts: draft.parts,
        symbols,
        total: draft.total,
        count: draft.count,
    }
}

/// Adds items to the first pass's draft, with zeros instead of their bytes. Returns false if one
/// finds no room for another symbol or defines a label again.
fn scan_items<'a>(
    alloc: Global,
    draft: &mut Draft<'a>,
    items: &[Item<'a>],
) -> Result<bool, AllocError>
    requires { All (λ i. IsItemOfSomeLine (item_of i)) items.now }
    ensures symbols { OnOk result
        (draft.new.symbols ≡ (fold (draft_after_item []) draft.old
        (map item_of items.now)).symbols) }
    ensures new { IfOk result
        (λ new. new ≡ are_new_with_room [] draft.old (map item_of items.now)) }
{
    let none = Symbols::new(alloc);
    let mut all_new = true;
    for item in items {
        let room = draft.has_symbol_room();
        let new = draft.scan_item(alloc, &none, item)?;
        all_new = are_items_new(all_new, room, new);
    }
    Ok(all_new)
}

/// Whether all items of the first pass so far find room for a symbol and define no label again.
/// `before` tells this of the earlier items, `room` and `new` of the last one.
#[inline(always)]
fn are_items_new(before: bool, room: bool, new: bool) -> bool
    ensures { result ≡ (before && (room && new)) }
{
    before && (room && new)
}

// The items of a source after the first `count`: those of the lines that are still to be assembled.
fn later_items<'p, 'a>(items: &'p [Item<'a>], count: u8) -> &'p [Item<'a>]
    ensures { result.now ≡ drop count items.now }
{
    &items[usize::from(count).min(items.len())..]
}

/// The first `count` of the items of a source that are still to be assembled: those of the next
/// line.
fn first_items<'p, 'a>(items: &'p [Item<'a>], count: u8) -> &'p [Item<'a>]
    ensures { result.now ≡ take count items.now }
{
    &items[..usize::from(count).min(items.len())]
}
