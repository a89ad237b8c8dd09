// The certificate of an image and a plan, or why there is none.
ghost use Rattle.std.specs.Prelude.{◌≡◌, ◌⊎◌, IfErr, IfOk};
ghost use Rattle.depth_maker.specs.Answers.{AreLeastCertBytesForInputs, HasLimitsOfFormat, IsRightMakeErr, IsRightMakeErrForInputs, MakeErrNamesRefusal, NamesDerivedFault};
ghost use Rattle.depth_maker.specs.LeastCertMade.{AreLeastCertBytes, IsLeastCert};
ghost use Rattle.depth_maker.specs.SpelledCert.{AreFixpointCertBytesForInputs};
ghost use Rattle.depth_maker.specs.Rows.{HasFinishedTable};
ghost use Rattle.depth_maker.specs.TableInvariant.{IsLeastFixpointTable};
ghost use Rattle.depth_maker.specs.declared.answering.MakeErr.TheVariants.{NoMemory};

use crate::fixpoint::least_fixpoint;
use crate::inputs_and_limits::Ground;
use crate::interrupt_handlers::irq_handlers;
use crate::needs::{least_frame_needs, need_refusal};
use crate::rows::Source;
use crate::spelling::serialize_cert;
use crate::table::Table;
use depth_cert::{CertErr, Key};
use elf_image::Image;
use frame_places::{Refusal, Spot, frame_number_map};
use packed_cert::Cert;
use std::alloc::{AllocError, AllocFailed, Global};
use tcd_plan::Plan;
use value_domain::Bounds;

/// Why there is no certificate: the rule that fails, with its place, or out of memory.
#[derive(Clone, Copy, Debug, PartialEq, Eq)]
pub enum MakeErr {
    Refused { rule: u8, key: Key, addr: u32 },
    NoMemory,
}

impl From<AllocError> for MakeErr {
    ghost from_gives = { λ _ e. e ≡ NoMemory };

    fn from(_error: AllocError) -> MakeErr {
        MakeErr::NoMemory
    }
}

impl<T: Drop> From<AllocFailed<T>> for MakeErr {
    ghost from_gives = { λ _ e. e ≡ NoMemory };

    fn from(_error: AllocFailed<T>) -> MakeErr {
        MakeErr::NoMemory
    }
}

impl From<tcd_base::NoMemory> for MakeErr {
    ghost from_gives = { λ _ e. e ≡ NoMemory };

    fn from(_error: tcd_base::NoMemory) -> MakeErr {
        MakeErr::NoMemory
    }
}

/// Returns the least certificate of format `version` that the rules accept, or why none is
/// accepted.
pub fn make(alloc: Global, image: &Image, plan: &Plan, version: u8) -> Result<Cert, MakeErr>
    requires { (version ≡ 1) ⊎ (version ≡ 2) }
    ensures made { IfOk result (IsLeastCert image.now plan.now version) }
    ensures refused { IfErr result (IsRightMakeErr image.now plan.now version) }
{
    let bytes = cert_as_bytes(alloc, image, plan, version)?;
    match Cert::read(alloc, bytes) {
        Ok(cert) => Ok(cert),
        Err(CertErr::NoMemory) => Err(MakeErr::NoMemory),
        Err(CertErr::Bad(_)) => unreachable!(),
    }
}

/// Returns the bytes of the least certificate of format 1 or 2 that the rules accept, or why none
/// is accepted.
fn cert_as_bytes(alloc: Global, image: &Image, plan: &Plan, version: u8) -> Result<Vec<u8>, MakeErr>
    requires { (version ≡ 1) ⊎ (version ≡ 2) }
    ensures made { IfOk result (λ out. AreLeastCertBytes image.now plan.now version out.items) }
    ensures refused { IfErr result (IsRightMakeErr image.now plan.now version) }
{
    let bounds = Bounds::of(plan, version);
    let _entry = image.entry;
    let _areas = plan.areas;
    let ground = Ground {
        bounds: &bounds,
        image,
        plan,
    };
    cert_bytes_for_inputs(alloc, &ground, version)
}

/// Returns the bytes of the least certificate of format `version` for the image, plan and limits in
/// `ground`, or why no certificate is accepted.
fn cert_bytes_for_inputs(alloc: Global, ground: &Ground, version: u8) -> Result<Vec<u8>, MakeErr>
    requires version { (version ≡ 1) ⊎ (version ≡ 2) }
    requires limits { HasLimitsOfFormat ground.now version }
    ensures made { IfOk result (λ out. AreLeastCertBytesForInputs ground.now version out.items) }
    ensures refused { IfErr result (IsRightMakeErrForInputs ground.now version) }
{
    match least_fixpoint(alloc, ground) {
        Ok(table) => cert_bytes_from_table(alloc, ground, &table, version),
        Err(refusal) => Err(make_err_from_refusal(ground, refusal)),
    }
}

/// Numbers a finished table's frames, and returns the bytes of the least certificate. The error is
/// a refusal by K14, the rule on needs, if the start needs too many areas.
fn cert_bytes_from_table(
    alloc: Global,
    ground: &Ground,
    table: &Table,
    version: u8,
) -> Result<Vec<u8>, MakeErr>
    requires done { IsLeastFixpointTable ground.now table.now }
    requires version { (version ≡ 1) ⊎ (version ≡ 2) }
    requires limits { HasLimitsOfFormat ground.now version }
    ensures ok { IfOk result (λ out. AreFixpointCertBytesForInputs ground.now version out.items) }
    ensures err { IfErr result (MakeErrNamesRefusal ground.now) }
{
    let numbers = frame_number_map(alloc, table.frames.as_slice())?;
    let handlers = irq_handlers(alloc, ground.plan, &numbers)?;
    let source = Source {
        ground,
        table,
        numbers: &numbers,
        handlers: handlers.as_slice(),
    };
    cert_with_least_needs(alloc, &source, version)
}

/// Converts a refusal to the maker's error: the rule that fails with its frame and address, or
/// NoMemory. For an exit the address is the frame's entry.
fn make_err_from_refusal(_ground: &Ground, refusal: Refusal) -> MakeErr
    requires { NamesDerivedFault _ground.now refusal }
    ensures { MakeErrNamesRefusal _ground.now result }
{
    match refusal {
        Refusal::Fault(rule, place) => match place {
            Spot::Point(key, addr) => MakeErr::Refused { rule, key, addr },
            Spot::Exit(key) => MakeErr::Refused {
                rule,
                key,
                addr: key.entry,
            },
        },
        Refusal::NoMemory => MakeErr::NoMemory,
    }
}

/// Computes the least needs of the frames of the finished table in `source`, and returns the
/// certificate's bytes. The error is a refusal by K14 if the start needs too many areas.
fn cert_with_least_needs(alloc: Global, source: &Source, version: u8) -> Result<Vec<u8>, MakeErr>
    requires source { HasFinishedTable source.now }
    requires version { (version ≡ 1) ⊎ (version ≡ 2) }
    requires limits { HasLimitsOfFormat source.now.ground.now version }
    ensures ok { IfOk result (λ out. AreFixpointCertBytesForInputs source.now.ground.now version
        out.items) }
    ensures err { IfErr result (MakeErrNamesRefusal source.now.ground.now) }
{
    match least_frame_needs(alloc, source)? {
        Ok(needs) => Ok(serialize_cert(alloc, source, version, needs.as_slice())?),
        Err(place) => Err(need_refusal(source, place)),
    }
}
