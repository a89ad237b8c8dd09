// The value that a load from the members of a value gives.
ghost use Rattle.std.specs.Prelude.{◌≡◌, ◌≤◌, ◌<◌, ◌+◌, ◌-◌, ◌*◌, ◌^◌, ◌++◌, ◌==◌, if◌then◌else◌, length, IfSome, false};
ghost use Rattle.std.specs.List.{flat_map};
ghost use Rattle.csa_chain.specs.MemoryBytes.{load_result};
ghost use Rattle.value_domain.specs.Values.{IsInLattice, cover, members};
ghost use Rattle.value_domain.specs.declared.values.Val.TheVariants.{Set, Span};
ghost use Rattle.store_ranges.specs.Accesses.{IsAccessSize};
ghost use Rattle.store_ranges.specs.Loads.{HoldsLoadedWords, all_loaded_words, answers_to_load, device_of_loads, first_device_holding, loaded_words_at, load_value_of};

use crate::ranges::device_of_accesses;
use crate::rom::rom_number;
use elf_image::Image;
use tcd_base::sext;
use tcd_plan::{Device, Plan};
use value_domain::{
    Bounds, Val, extent_of, join_into, join_word_list, set_span, set_words, write_any, write_cover,
};

/// How many bytes a load takes, and whether it extends their sign.
#[derive(Clone, Copy)]
pub struct LoadKind {
    pub size: u8,
    pub signed: bool,
}

/// Returns the least abstract value, within the limits `b`, that holds what loads of `size` bytes
/// from all addresses in `at` give. Rom gives the image's word, a peripheral the plan's answers,
/// any other address any word.
pub fn load_of(b: &Bounds, image: &Image, plan: &Plan, at: &Val, size: u8, signed: bool) -> Val
    requires at { IsInLattice b.now at.now }
    requires size { IsAccessSize size }
    ensures loaded { result ≡ load_value_of b.now image.now plan.now at.now size signed }
    ensures value { IsInLattice b.now result }
    ensures sound { HoldsLoadedWords image.now plan.now at.now size signed result }
{
    let mut out = Val::any();
    write_load(b, image, plan, at, LoadKind { size, signed }, &mut out);
    out
}

/// Overwrites `out` with what `load_of` returns: the least abstract value that holds what loads
/// from all addresses in `at` give.
pub fn write_load(b: &Bounds, image: &Image, plan: &Plan, at: &Val, load: LoadKind, out: &mut Val)
    requires at { IsInLattice b.now at.now }
    requires size { IsAccessSize load.size }
    ensures loaded { out.new ≡ load_value_of b.now image.now plan.now at.now load.size load.signed }
    ensures value { IsInLattice b.now out.new }
    ensures sound { HoldsLoadedWords image.now plan.now at.now load.size load.signed out.new }
{
    // Reading the plan gives the facts that hold of every plan.
    let _areas = plan.areas;
    match at {
        Val::Set(words) => write_loads(b, image, plan, words.as_slice(), load, out),
        Val::Span { .. } => write_loads_from_span(b, plan, at, load, out),
    }
}

/// Overwrites `out` with what loads from all these addresses, one at least, give.
fn write_loads(b: &Bounds, image: &Image, plan: &Plan, words: &[u32], load: LoadKind, out: &mut Val)
    requires some { 1 ≤ length words.now }
    requires size { IsAccessSize load.size }
    ensures loaded { out.new
        ≡ cover b.now (flat_map
        (loaded_words_at image.now plan.now load.size load.signed) words.now) }
    ensures value { IsInLattice b.now out.new }
{
    write_load_at(b, image, plan, words[0], load, out);
    for i in 1..words.len() {
        join_load_at(b, image, plan, words[i], load, out);
    }
}

/// Overwrites `out` with what loads from the Span `at` of addresses give: the answers of the
/// peripheral whose range holds them all, else any loaded word.
fn write_loads_from_span(b: &Bounds, plan: &Plan, at: &Val, load: LoadKind, out: &mut Val)
    requires at { IsInLattice b.now at.now }
    requires size { IsAccessSize load.size }
    ensures loaded { out.new ≡ cover b.now (answers_to_load load.size load.signed
        (device_of_loads plan.now load.size (members at.now))) }
    ensures value { IsInLattice b.now out.new }
{
    let e = extent_of(at);
    let device = device_of_load(plan, e.least, e.greatest, load.size);
    write_peripheral_answers(b, device, load, out);
}

/// Overwrites `out` with what a load from the address `x` gives: the word in rom, else a
/// peripheral's answers, else any loaded word.
fn write_load_at(b: &Bounds, image: &Image, plan: &Plan, x: u32, load: LoadKind, out: &mut Val)
    requires { IsAccessSize load.size }
    ensures loaded { out.new
        ≡ cover b.now (loaded_words_at image.now plan.now load.size load.signed x) }
    ensures value { IsInLattice b.now out.new }
    ensures some { 1 ≤ length (loaded_words_at image.now plan.now load.size load.signed x) }
{
    let _most_words = b.most_words();
    let device = device_of_load(plan, x, x, load.size);
    match rom_number(image, plan, x, load.size) {
        Some(number) => set_words(out, &[extend_loaded_number(number, load)]),
        None => write_peripheral_answers(b, device, load, out),
    }
}

/// Joins what a load from one more address, `x`, gives into the abstract value `out`.
fn join_load_at(b: &Bounds, image: &Image, plan: &Plan, x: u32, load: LoadKind, out: &mut Val)
    requires size { IsAccessSize load.size }
    requires value { IsInLattice b.now out.old }
    ensures loaded { out.new ≡ cover b.now
        (members out.old ++ loaded_words_at image.now plan.now load.size load.signed x) }
    ensures value { IsInLattice b.now out.new }
{
    let device = device_of_load(plan, x, x, load.size);
    match rom_number(image, plan, x, load.size) {
        Some(number) => join_word_list(b, out, &[extend_loaded_number(number, load)]),
        None => join_peripheral_answers(b, device, load, out),
    }
}

/// Returns the first peripheral whose range holds a word both at `low` and at `high`, and so
/// answers a load. `None` if there is none, or for fewer than 4 bytes.
fn device_of_load(plan: &Plan, low: u32, high: u32, size: u8) -> Option<Device>
    ensures device { result
        ≡ (if size == 4 then first_device_holding plan.now.devices low high 4 else None) }
    ensures bounds { IfSome result (λ d. d.lo ≤ d.hi) }
{
    if size != 4 {
        return None;
    }
    device_of_accesses(plan.devices.as_slice(), low, high, 4)
}

/// Returns the word that a load writes to its register: the loaded number, extended by its sign or
/// with zeros.
fn extend_loaded_number(number: u32, load: LoadKind) -> u32
    requires size { IsAccessSize load.size }
    requires below { number < 2 ^ (8 * load.size) }
    ensures { result ≡ load_result load.signed load.size number }
{
    if load.signed {
        sext(number, 8 * load.size)
    } else {
        number
    }
}

/// Overwrites `out` with the cover of the words that a peripheral may answer to a load. Without a
/// peripheral, all loaded words of that size and sign are covered.
fn write_peripheral_answers(b: &Bounds, device: Option<Device>, load: LoadKind, out: &mut Val)
    requires size { IsAccessSize load.size }
    requires bounds { IfSome device (λ d. d.lo ≤ d.hi) }
    ensures cover { out.new ≡ cover b.now (answers_to_load load.size load.signed device) }
    ensures value { IsInLattice b.now out.new }
    ensures some { 1 ≤ length (answers_to_load load.size load.signed device) }
{
    match device {
        Some(device) => write_cover(b, device.lo, device.hi, 0, out),
        None => write_all_loaded_words(b, load, out),
    }
}

/// Overwrites `out` with the cover, within the limits `b`, of all words that a load of this size
/// and sign can give.
fn write_all_loaded_words(b: &Bounds, load: LoadKind, out: &mut Val)
    requires { IsAccessSize load.size }
    ensures cover { out.new ≡ cover b.now (all_loaded_words load.size load.signed) }
    ensures value { IsInLattice b.now out.new }
{
    let _most_words = b.most_words();
    if load.signed {
        write_any(out);
    } else {
        write_unsigned_loaded_words(b, load.size, out);
    }
}

/// Overwrites `out` with the cover, within the limits `b`, of all numbers of `size` bytes, which an
/// unsigned load can give.
fn write_unsigned_loaded_words(b: &Bounds, size: u8, out: &mut Val)
    requires { IsAccessSize size }
    ensures cover { out.new ≡ cover b.now (all_loaded_words size false) }
    ensures value { IsInLattice b.now out.new }
{
    let _most_words = b.most_words();
    if size == 4 {
        write_any(out);
    } else {
        let last = b.threshold_above(greatest_loaded_number(size)) - 1;
        set_span(out, 0, last as u32, 0);
    }
}

/// Returns the greatest number that an unsigned load of `size` bytes can give.
fn greatest_loaded_number(size: u8) -> u32
    requires { IsAccessSize size }
    ensures { result ≡ 2 ^ (8 * size) - 1 }
{
    match size {
        1 => 0xFF,
        2 => 0xFFFF,
        _ => 0xFFFF_FFFF,
    }
}

/// Joins the words that a peripheral may answer to a load, or all loaded words without one, into
/// `out`. Never inlined, so that callers reserve no stack for a value.
#[inline(never)]
fn join_peripheral_answers(b: &Bounds, device: Option<Device>, load: LoadKind, out: &mut Val)
    requires size { IsAccessSize load.size }
    requires bounds { IfSome device (λ d. d.lo ≤ d.hi) }
    requires value { IsInLattice b.now out.old }
    ensures cover { out.new
        ≡ cover b.now (members out.old ++ answers_to_load load.size load.signed device) }
    ensures value { IsInLattice b.now out.new }
{
    let mut answers = Val::any();
    write_peripheral_answers(b, device, load, &mut answers);
    join_into(b, out, &answers);
}
