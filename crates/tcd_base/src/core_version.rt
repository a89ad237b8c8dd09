// The versions of the core that a plan can name: they differ in the layout of PCXI.

/// The layout of PCXI. `V13` (core 1.3): PCPN in bits 31:24, PIE in 23, UL in 22. `V16` (core 1.6):
/// PCPN in 29:22, PIE in 21, UL in 20. Both have the link word in bits 19:0.
#[derive(Clone, Copy, Debug, PartialEq, Eq)]
pub enum Core {
    V13,
    V16,
}
