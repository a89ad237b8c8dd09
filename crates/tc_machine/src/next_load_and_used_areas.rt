// Questions about a machine: its next load, and the number of areas in use.
ghost use Rattle.std.specs.Prelude.{◌≡◌, Ok, Some, None, IfOk, if◌then◌else◌};
ghost use Rattle.std.specs.Bool.{OnTrue};
ghost use Rattle.csa_chain.specs.Chain.{link_in, is_area_mapped, area_word};
ghost use Rattle.tc_isa.specs.InBounds.{IsShapeInBounds};
ghost use Rattle.tc_machine.specs.Fetching.{shape_at_pc};
ghost use Rattle.tc_machine.specs.Stepping.{load_of_fetched, next_load_of, used_area_count, step};
ghost use Rattle.tc_machine.specs.InstructionKinds.{is_area_preserving_shape, is_area_preserving_event};

use crate::contexts::link_in;
use crate::{Cause, End, Event, Machine};
use csa_chain::address_of;
use tc_isa::Shape;

/// Returns true if an instruction of this shape changes neither the memory nor PCXI under this
/// event. Then the save areas in use stay the same.
fn is_area_preserving_shape(event: &Event, shape: Shape) -> bool
    ensures { result ≡ is_area_preserving_shape event.now shape }
{
    match shape {
        Shape::Load { .. } => !event.aln,
        Shape::Compute { .. } | Shape::Scaled { .. } | Shape::Branch { .. } => true,
        Shape::Jump { .. } | Shape::Mfcr { .. } => true,
        Shape::Enable | Shape::Disable | Shape::Nothing => true,
        _ => false,
    }
}

impl Machine {
    /// Returns the address and the size in bytes that the load at pc, decoded as `found`, would
    /// read. `None`: the machine is dead, or no load is at pc.
    pub fn next_load_predecoded(&self, found: &Result<(Shape, u32), Cause>) -> Option<(u32, u8)>
        requires found { found.now ≡ shape_at_pc self.now }
        requires bounded { IfOk found.now (λ it. IsShapeInBounds it.0) }
        ensures { result ≡ next_load_of self.now }
    {
        match self.end {
            End::Running => match found {
                Ok((shape, _)) => self.load_by_shape(*shape),
                Err(_) => None,
            },
            End::Dead(_) => None,
        }
    }

    /// Returns the address and the size in bytes that the load at pc would read. `None`: the
    /// machine is dead, or no load is at pc.
    pub fn next_load(&self) -> Option<(u32, u8)>
        ensures { result ≡ next_load_of self.now }
    {
        self.next_load_predecoded(&self.shape_at_pc())
    }

    /// Returns true if the event takes no interrupt, and the instruction at pc, decoded as `found`,
    /// changes neither memory nor PCXI. Then the save areas in use stay the same.
    pub fn preserves_areas(&self, event: &Event, found: &Result<(Shape, u32), Cause>) -> bool
        requires { found.now ≡ shape_at_pc self.now }
        ensures is { result ≡ is_area_preserving_event self.now event.now found.now }
        ensures kept { OnTrue result
            (used_area_count (step self.now event.now) ≡ used_area_count self.now) }
    {
        if self.ie && self.ccpn < event.irq {
            return false;
        }
        match found {
            Ok((shape, _)) => is_area_preserving_shape(event, *shape),
            Err(_) => false,
        }
    }

    /// Returns the number of areas in use: the length of the chain from PCXI. The answer is `None`
    /// exactly if the chain has more than 4,096 links, or reaches an area that isn't wholly mapped.
    pub fn used(&self) -> Option<u32>
        ensures { result ≡ used_area_count self.now }
    {
        let mut word = self.pcxi;
        let mut count = 0;
        let mut near = 0;
        while link_in(word) != 0 {
            if count == 4096 {
                return None;
            }
            word = self.next_link_word(word, &mut near)?;
            count += 1;
        }
        Some(count)
    }

    /// Returns the address and the size in bytes that an instruction of this shape would load, or
    /// `None` if the instruction is no load. In the contract, 0 stands in for the instruction's
    /// length.
    fn load_by_shape(&self, shape: Shape) -> Option<(u32, u8)>
        requires { IsShapeInBounds shape }
        ensures { result ≡ load_of_fetched self.now (Ok (shape, 0)) }
    {
        match shape {
            Shape::Load {
                base,
                offset,
                size,
                after,
                ..
            } => Some((self.access_address(base, offset, after), size)),
            _ => None,
        }
    }

    /// Returns word 0 of the area whose link is in `word`, which has the chain's next link, or
    /// `None` if the area isn't wholly mapped. `near` is a hint that speeds up the look-up.
    #[tactic(auto, using(crate::proofs::WholeAccesses::first_of_area))]
    fn next_link_word(&self, word: u32, near: &mut usize) -> Option<u32>
        ensures { result ≡
            (if is_area_mapped self.now.mem (link_in word)
            then Some (area_word self.now.mem (link_in word) 0) else None) }
    {
        self.mem.area_first_word(address_of(link_in(word)), near)
    }
}
