// Core registers, by their numbers.
ghost use Rattle.std.specs.Prelude.{◌≡◌, ◌+◌, ◌*◌, ◌/◌, ◌^◌, if◌then◌else◌};
ghost use Rattle.tc_machine.specs.Machine.{core_register, with_core_register};

use crate::{Event, Machine};
use tc_isa::{BIV, BTV, FCX, ICR, ISP, LCX, PCXI, PSW};

/// Returns ICR: CCPN in bits 7:0, IE in bit 8, and the other bits from the event's `input`.
fn icr(ccpn: u8, ie: bool, input: u32) -> u32
    ensures { result ≡ input / 2 ^ 9 * 2 ^ 9 + (if ie then 2 ^ 8 else 0) + ccpn }
{
    let enabled = if ie { 0x100 } else { 0 };
    input / 0x200 * 0x200 + enabled + u32::from(ccpn)
}

impl Machine {
    /// Returns the word that `mfcr` reads from the core register with this number. For an unlisted
    /// number the word is the event's input.
    pub(crate) fn core_register(&self, event: &Event, number: u16) -> u32
        ensures { result ≡ core_register self.now event.now number }
    {
        match number {
            PCXI => self.pcxi,
            PSW => self.psw,
            BIV => self.biv,
            BTV => self.btv,
            ISP => self.isp,
            ICR => icr(self.ccpn, self.ie, event.input),
            FCX => self.fcx,
            LCX => self.lcx,
            _ => event.input,
        }
    }

    /// Writes the core register with this number. BIV and BTV drop bit 0, ICR takes bits 8:0, and
    /// any other number changes nothing.
    pub(crate) fn set_core_register(&mut self, number: u16, word: u32)
        ensures { self.new ≡ with_core_register self.old number word }
    {
        match number {
            PCXI => self.pcxi = word,
            PSW => self.psw = word,
            BIV => self.biv = word / 2 * 2,
            BTV => self.btv = word / 2 * 2,
            ISP => self.isp = word,
            ICR => {
                self.ccpn = (word % 0x100) as u8;
                self.ie = word / 0x100 % 2 == 1;
            }
            FCX => self.fcx = word,
            LCX => self.lcx = word,
            _ => {}
        }
    }
}
