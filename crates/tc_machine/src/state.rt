// The state of the machine.
use crate::End;
use tc_mem::Mem;
use tcd_base::Core;

/// The state of the machine (manual, volume 1, core registers).
#[derive(Drop)]
pub struct Machine {
    pub pc: u32,
    /// D0 to D15.
    pub d: [u32; 16],
    /// A0 to A15.
    pub a: [u32; 16],
    pub psw: u32,
    pub pcxi: u32,
    pub fcx: u32,
    pub lcx: u32,
    /// The field CCPN of ICR.
    pub ccpn: u8,
    /// The bit IE of ICR.
    pub ie: bool,
    pub biv: u32,
    pub btv: u32,
    pub isp: u32,
    /// The mapped memory.
    pub mem: Mem,
    pub end: End,
    /// The layout of PCXI, which never changes.
    pub core: Core,
}
