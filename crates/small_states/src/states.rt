// States and exits with compact values.
ghost use Rattle.std.specs.Prelude.{◌≡◌, ◌≤◌, ◌↔◌, IsTrue, IfOk};
ghost use Rattle.small_states.specs.CompactForms.{whole_exit};

use crate::values::Values;
use arrayvec::ArrayVec;
use std::alloc::AllocError;
use std::rc::Rc;

/// A state. Several states may share their values.
#[derive(Drop)]
pub struct SmallState {
    /// The values of the registers, in the order of `State::regs`.
    pub regs: Rc<Values>,
    /// Interrupts may be enabled.
    pub ie: bool,
    /// CCPN is at least this.
    pub ccpn: u8,
    /// The lower registers are those of the entry.
    pub lower: bool,
    /// A flag for each lower context that the frame saved itself and hasn't restored.
    pub locals: ArrayVec<bool, 8>,
}

/// An exit. Its copies share its values.
#[derive(Drop)]
pub struct SmallExit {
    /// Interrupts may be enabled.
    pub ie: bool,
    /// CCPN is at least this.
    pub ccpn: u8,
    /// The values of the lower registers D0 to D7 and A2 to A7.
    pub lower: Rc<Values>,
}

impl SmallState {
    /// Returns true if this state is no stricter in IE, CCPN bound or `lower` than the given ones.
    pub fn covers_context(&self, ie: bool, ccpn: u8, lower: bool) -> bool
        ensures { IsTrue result
            ↔ ((IsTrue ie → IsTrue self.now.ie) × (self.now.ccpn ≤ ccpn)
            × (IsTrue self.now.lower → IsTrue lower)) }
    {
        (self.ie || !ie) && self.ccpn <= ccpn && (!self.lower || lower)
    }
}

impl SmallExit {
    /// Returns a copy of the compact exit, which shares its values.
    pub fn copy(&self) -> Result<SmallExit, AllocError>
        ensures { IfOk result (λ x. whole_exit x ≡ whole_exit self.now) }
    {
        let lower = self.lower.clone()?;
        Ok(SmallExit {
            ie: self.ie,
            ccpn: self.ccpn,
            lower,
        })
    }

    /// Returns true if this exit is no stricter in IE or CCPN bound than the given ones.
    pub fn covers_context(&self, ie: bool, ccpn: u8) -> bool
        ensures { IsTrue result ↔ ((IsTrue ie → IsTrue self.now.ie) × (self.now.ccpn ≤ ccpn)) }
    {
        (self.ie || !ie) && self.ccpn <= ccpn
    }
}
