// Sparse lists of values: only known values take room. A value is unknown if it holds all words.
ghost use Rattle.std.specs.Prelude.{◌≡◌, ◌+◌, ◌-◌, ◌^◌, ◌<◌, ◌≤◌, ◌++◌, ◌∷◌, [], IfOk, OnOk, length, replicate, take, slice_index_or, slice_set, IsTrue};
ghost use Rattle.value_domain.specs.Values.{any_val};
ghost use Rattle.small_states.specs.CompactForms.{all_values, HasUnknownsBefore, index_after_known, values_to_last_known, values_from, IsIndexAfter};
ghost use Rattle.small_states.specs.Incoming.{incoming_value_of};
ghost use Rattle.value_domain.specs.State.{AreBelow, AreWellFormed};

use crate::incoming::Given;
use crate::small_value::{Small, SmallForm};
use std::alloc::{AllocError, Global};
use value_domain::{Val, write_any};

/// A known value after a number of unknown ones.
#[derive(Drop)]
pub struct SpacedValue {
    /// The number of unknown values before it.
    pub(crate) anys: u32,
    pub(crate) value: Small,
}

/// A list of values: the known ones, and the number of unknown ones after the last of them.
#[derive(Drop)]
pub struct Values {
    pub(crate) known: Vec<SpacedValue>,
    /// The number of unknown values at the end.
    pub(crate) rest: u32,
}

/// Writes unknown values, all words, to the indices from `from` to before `to` of a state's values.
#[inline(always)]
fn write_unknowns(out: &mut [Val; 27], from: usize, to: usize)
    requires ordered { from ≤ to }
    requires within { to ≤ 27 }
    ensures written { take to out.new ≡ take from out.old ++ replicate (to - from) any_val }
    ensures long { length out.new ≡ 27 }
{
    for i in from..to {
        write_any(&mut out[i]);
    }
}

impl Values {
    /// Appends `count` unknown values to a compact list, which only counts them.
    #[inline(always)]
    pub(crate) fn push_unknowns(&mut self, count: u32)
        requires { length (all_values self.old) + count < 2 ^ 32 }
        ensures { all_values self.new ≡ all_values self.old ++ replicate count any_val }
    {
        self.rest += count;
    }

    /// Appends a value to a compact list. An unknown one is only counted.
    #[inline(always)]
    pub(crate) fn push_value(&mut self, value: Small) -> Result<(), AllocError>
        requires { length (all_values self.old) + 1 < 2 ^ 32 }
        ensures { OnOk result (all_values self.new ≡ all_values self.old ++ value ∷ []) }
    {
        if value.is_any() {
            self.rest += 1;
            return Ok(());
        }
        let anys = self.rest;
        self.known.push(SpacedValue { anys, value })?;
        self.rest = 0;
        Ok(())
    }

    /// Appends `anys` unknown values and then a value to a compact list.
    #[inline(always)]
    pub(crate) fn push_after_unknowns(&mut self, anys: u32, value: Small) -> Result<(), AllocError>
        requires { length (all_values self.old) + anys + 1 < 2 ^ 32 }
        ensures { OnOk result (all_values self.new
            ≡ (all_values self.old ++ replicate anys any_val) ++ value ∷ []) }
    {
        self.push_unknowns(anys);
        self.push_value(value)
    }

    /// Returns the value at an index of a compact list; `any` for an unknown one and past the end.
    pub(crate) fn value_or_any<'a>(&'a self, any: &'a Small, i: usize) -> Given<'a>
        requires { any.now ≡ any_val }
        ensures { incoming_value_of result ≡ slice_index_or (all_values self.now) i any_val }
    {
        let (n, anys) = self.locate_index(i);
        if n < self.known.len() {
            let here = &self.known[n];
            if here.anys as usize == anys {
                return Given::Compact(&here.value);
            }
        }
        Given::Compact(any)
    }

    /// Sets the value at an index of a compact list. Past the end, nothing changes.
    pub(crate) fn set_at_index(&mut self, i: usize, value: Small) -> Result<(), AllocError>
        ensures { OnOk result
            (all_values self.new ≡ slice_set (all_values self.old) i value) }
    {
        let (n, anys) = self.locate_index(i);
        if n < self.known.len() {
            return self.set_in_entry(n, anys, value);
        }
        self.set_after_known(anys, value)
    }

    /// Writes a compact list of 27 values over the whole ones of a state.
    #[inline(never)]
    pub(crate) fn write_to(&self, out: &mut [Val; 27])
        requires { length (all_values self.now) ≡ 27 }
        ensures { out.new ≡ all_values self.now }
    {
        let known = self.known.as_slice();
        let mut at = 0;
        for n in 0..known.len() {
            let here = &known[n];
            let place = at + here.anys as usize;
            write_unknowns(out, at, place);
            if !here.value.stands_for(&out[place]) {
                here.value.write_to(&mut out[place]);
            }
            at = place + 1;
        }
        write_unknowns(out, at, 27);
    }

    /// Returns a copy of a compact list, with room for one more known value.
    pub(crate) fn copy(&self, alloc: Global) -> Result<Values, AllocError>
        ensures { IfOk result (λ copy. all_values copy ≡ all_values self.now) }
    {
        let own = self.known.as_slice();
        let mut known = Vec::with_capacity(alloc, own.len() + 1)?;

        // Single words mostly come first. They are copied without a look at the other forms.
        let mut n = 0;
        while n < own.len() {
            let here = &own[n];
            let anys = here.anys;
            let Some(x) = here.value.single_word() else {
                break;
            };
            let value = Small {
                form: SmallForm::One(x),
            };
            known.push(SpacedValue { anys, value })?;
            n += 1;
        }
        for k in n..own.len() {
            let anys = own[k].anys;
            let value = own[k].value.copy()?;
            known.push(SpacedValue { anys, value })?;
        }
        let rest = self.rest;
        Ok(Values { known, rest })
    }

    /// Appends `count` values of another compact list, from the index `from` on; past that list's
    /// end, unknown values.
    #[inline(always)]
    pub(crate) fn extend_from_range(
        &mut self,
        others: &Values,
        from: usize,
        count: usize,
    ) -> Result<(), AllocError>
        requires few { length (all_values self.old) + count < 2 ^ 32 }
        requires near { from < 2 ^ 32 }
        ensures { OnOk result
            (all_values self.new
            ≡ all_values self.old ++ values_from (all_values others.now) from count) }
    {
        let known = others.known.as_slice();
        let to = from + count;
        let mut at = 0;
        let mut done = from;
        for n in 0..known.len() {
            let here = &known[n];
            let place = at + here.anys as usize;
            if place >= to {
                self.push_unknowns((to - done) as u32);
                return Ok(());
            }
            at = place + 1;
            if place >= from {
                let value = here.value.copy()?;
                self.push_after_unknowns((place - done) as u32, value)?;
                done = at;
            }
        }
        self.push_unknowns((to - done) as u32);
        Ok(())
    }

    /// Returns how many known values of a compact list are before the index `i`, and how many
    /// unknown ones are between them and the index.
    #[inline(always)]
    fn locate_index(&self, i: usize) -> (usize, usize)
        ensures { IsIndexAfter self.now i result.0 result.1 }
    {
        let known = self.known.as_slice();
        let mut left = i;
        for n in 0..known.len() {
            let anys = known[n].anys as usize;
            if left <= anys {
                return (n, left);
            }
            left = left - anys - 1;
        }
        (known.len(), left)
    }

    /// Sets the value at the offset `anys` in entry `n` of a compact list: one of its unknown
    /// values or, after these, its known one.
    fn set_in_entry(&mut self, n: usize, anys: usize, value: Small) -> Result<(), AllocError>
        requires within { n < length self.old.known.items }
        requires before { HasUnknownsBefore self.old n anys }
        ensures { OnOk result
            (all_values self.new
            ≡ slice_set (all_values self.old) (index_after_known self.old n anys) value) }
    {
        let past = self.known[n].anys as usize - anys;
        if past == 0 {
            self.known[n].value = value;
            return Ok(());
        }
        if value.is_any() {
            return Ok(());
        }
        self.known[n].anys = (past - 1) as u32;
        self.known.insert(
            n,
            SpacedValue {
                anys: anys as u32,
                value,
            },
        )?;
        Ok(())
    }

    /// Sets the value of a compact list that is `anys` unknown values after the last known one.
    /// Past the end, nothing changes.
    fn set_after_known(&mut self, anys: usize, value: Small) -> Result<(), AllocError>
        ensures { OnOk result
            (all_values self.new
            ≡ slice_set (all_values self.old)
            (length (values_to_last_known self.old.known.items) + anys) value) }
    {
        let rest = self.rest as usize;
        if rest <= anys || value.is_any() {
            return Ok(());
        }
        self.rest = (rest - anys - 1) as u32;
        self.known.push(SpacedValue {
            anys: anys as u32,
            value,
        })?;
        Ok(())
    }
}

/// Returns true only if both compact lists know values at the same indices, and each value of `low`
/// is below that of `high`.
pub(crate) fn are_all_below(low: &Values, high: &Values) -> bool
    requires low { AreWellFormed (all_values low.now) }
    requires high { AreWellFormed (all_values high.now) }
    requires long { length (all_values low.now) ≡ length (all_values high.now) }
    ensures { IsTrue result → AreBelow (all_values low.now) (all_values high.now) }
{
    let lows = low.known.as_slice();
    let highs = high.known.as_slice();
    if lows.len() != highs.len() {
        return false;
    }
    for n in 0..lows.len() {
        let here = &lows[n];
        let above = &highs[n];
        if here.anys != above.anys {
            return false;
        }
        if !above.value.covers_small(&here.value) {
            return false;
        }
    }
    true
}
