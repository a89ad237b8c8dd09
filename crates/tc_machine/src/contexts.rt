// Saves and restores contexts.
ghost use Rattle.std.specs.Prelude.{◌≡◌, ◌<◌, ◌%◌, ◌^◌, Some, None, if◌then◌else◌, true, ◌+◌};
ghost use Rattle.csa_chain.specs.MemoryBytes.{with_word};
ghost use Rattle.csa_chain.specs.Chain.{link_in, is_area_mapped, area_word};
ghost use Rattle.csa_chain.specs.ContextWords.{pcxi_word_of};
ghost use Rattle.tc_machine.specs.SavesAndRestores.{context_of, with_context_saved, save, saved_area_words, last_context, with_area_released, with_upper_restored, with_lower_restored, restore};

use crate::{Cause, Machine};
use csa_chain::{
    PcxiParts, address_of, load_lower, load_upper, lower_words, pcxi_parts, pcxi_word, upper_words,
};
use tc_mem::Mem;

/// Returns the link of a context save area in bits 19:0 of a word, such as FCX, PCXI or word 0 of
/// an area.
pub(crate) fn link_in(word: u32) -> u32
    ensures { result ≡ link_in word }
{
    word % 0x10_0000
}

/// Writes a word to the four bytes from an address on, in a context save area.
pub(crate) fn write_area_word(mem: &mut Mem, addr: u32, word: u32)
    requires { addr + 3 < 2 ^ 32 }
    ensures { mem.new ≡ with_word mem.old addr word }
{
    if mem.set_word(addr, word) {
        return;
    }
    write_area_word_bytes(mem, addr, word);
}

/// Writes a word byte by byte to a context save area, as when its link to the next free area is
/// written.
#[tactic(auto, unfolding(csa_chain::specs::MemoryBytes::with_word))]
fn write_area_word_bytes(mem: &mut Mem, addr: u32, word: u32)
    requires { addr + 3 < 2 ^ 32 }
    ensures { mem.new ≡ with_word mem.old addr word }
{
    mem.set(addr, (word % 256) as u8);
    mem.set(addr + 1, (word / 256 % 256) as u8);
    mem.set(addr + 2, (word / 65536 % 256) as u8);
    mem.set(addr + 3, (word / 16777216 % 256) as u8);
}

impl Machine {
    /// Returns the 16 words that a save of the upper context (`upper`), or the lower one, writes.
    fn words_to_save(&self, upper: bool) -> [u32; 16]
        ensures { result ≡ context_of self.now upper }
    {
        if upper {
            upper_words(self.pcxi, self.psw, &self.d, &self.a)
        } else {
            lower_words(self.pcxi, &self.d, &self.a)
        }
    }

    /// Returns PCXI after the upper or lower context was saved to the area that the link `free`
    /// names.
    fn pcxi_after_save(&self, upper: bool, free: u32) -> u32
        ensures { result ≡ pcxi_word_of self.now.core self.now.ccpn self.now.ie upper
            (link_in free) }
    {
        let parts = PcxiParts {
            pcpn: self.ccpn,
            pie: self.ie,
            ul: upper,
            link: free,
        };
        pcxi_word(self.core, &parts)
    }
}

impl Machine {
    /// Returns the 16 words of the context save area that the link `named` names, or `None` if the
    /// area isn't wholly mapped.
    #[tactic(auto, using(crate::proofs::ContextWords::area_of_words))]
    pub(crate) fn words_of_area(&self, named: u32) -> Option<[u32; 16]>
        requires { named < 2 ^ 20 }
        ensures { result ≡
            (if is_area_mapped self.now.mem named then Some
            (saved_area_words self.now.mem named) else None) }
    {
        self.mem.area(address_of(named))
    }

    /// Saves the upper context if `upper`, else the lower (manual, volume 1, context management).
    /// The machine dies if the free list is empty, its first area unmapped, or its limit reached.
    #[tactic(auto, unfolding(crate::specs::SavesAndRestores::save))]
    pub(crate) fn save(&mut self, upper: bool)
        ensures { self.new ≡ save self.old upper }
    {
        let free = link_in(self.fcx);
        if free == 0 {
            self.die(Cause::Fcu);
            return;
        }
        let Some(words) = self.words_of_area(free) else {
            self.die(Cause::NoArea);
            return;
        };
        let limit = link_in(self.lcx);
        self.save_to_area(free, words[0], upper);
        if free == limit {
            self.die(Cause::Fcd);
        }
    }

    /// Restores the upper context if `upper`, else the lower (manual, volume 1, context
    /// management). The machine dies if PCXI names none, one of the other kind, or an unmapped
    /// area.
    #[tactic(auto, unfolding(crate::specs::SavesAndRestores::restore))]
    pub(crate) fn restore(&mut self, upper: bool)
        ensures { self.new ≡ restore self.old upper }
    {
        let parts = pcxi_parts(self.core, self.pcxi);
        if parts.link == 0 {
            self.die(Cause::Csu);
            return;
        }
        if parts.ul != upper {
            self.die(Cause::Ctyp);
            return;
        }
        let Some(words) = self.words_of_area(parts.link) else {
            self.die(Cause::NoArea);
            return;
        };
        if upper {
            self.restore_upper_registers(parts.link, &words);
        } else {
            self.restore_lower_registers(parts.link, &words);
        }
    }

    /// Saves the upper context if `upper`, else the lower, to the first free area, which the link
    /// `free` names. The area's old word 0, `next`, has the link of the next free one.
    fn save_to_area(&mut self, free: u32, next: u32, upper: bool)
        requires free { free ≡ link_in self.old.fcx }
        requires mapped { is_area_mapped self.old.mem free ≡ true }
        requires next { next ≡ area_word self.old.mem free 0 }
        ensures { self.new ≡ with_context_saved self.old upper }
    {
        let words = self.words_to_save(upper);
        self.mem.set_area(address_of(free), &words);
        self.pcxi = self.pcxi_after_save(upper, free);
        self.fcx = self.fcx / 0x10_0000 * 0x10_0000 + link_in(next);
    }

    /// Restores the registers of the upper context from `words`, the content of the area that PCXI
    /// names, whose link is `used`. Then frees that area.
    fn restore_upper_registers(&mut self, used: u32, words: &[u32; 16])
        requires used { used ≡ link_in self.old.pcxi }
        requires words { words.now ≡ last_context self.old }
        ensures { self.new ≡ with_upper_restored self.old }
    {
        let (before, psw) = load_upper(words, &mut self.d, &mut self.a);
        self.psw = psw;
        self.release_area(used, before);
    }

    /// Restores the registers of the lower context from `words`, the content of the area that PCXI
    /// names, whose link is `used`. Then frees that area.
    fn restore_lower_registers(&mut self, used: u32, words: &[u32; 16])
        requires used { used ≡ link_in self.old.pcxi }
        requires words { words.now ≡ last_context self.old }
        ensures { self.new ≡ with_lower_restored self.old }
    {
        let before = load_lower(words, &mut self.d, &mut self.a);
        self.release_area(used, before);
    }

    /// Moves the area that PCXI names by the link `used` to the front of the free list. Its old
    /// word 0, `before`, becomes PCXI.
    #[tactic(auto, unfolding(csa_chain::specs::MemoryBytes::with_words))]
    fn release_area(&mut self, used: u32, before: u32)
        requires used { used ≡ link_in self.old.pcxi }
        requires before { before ≡ area_word self.old.mem used 0 }
        ensures { self.new ≡ with_area_released self.old }
    {
        write_area_word(&mut self.mem, address_of(used), self.fcx);
        self.pcxi = before;
        self.fcx = self.fcx / 0x10_0000 * 0x10_0000 + used;
    }
}
