// What a certificate is made for.
ghost use Rattle.depth_maker.specs.DutiesMonotone.{AreMakerInputs};

use cfg_recover::Located;
use depth_cert::Key;
use elf_image::Image;
use tcd_plan::Plan;
use value_domain::{Bounds, State};

/// An image and a plan, with the limits of values of one format.
#[derive(Drop)]
pub(crate) struct Ground<'a> {
    pub(crate) bounds: &'a Bounds,
    pub(crate) image: &'a Image,
    pub(crate) plan: &'a Plan,
    pub ghost sound: { AreMakerInputs bounds.now image.now plan.now },
}

/// A visited point, and its state.
#[derive(Drop)]
pub(crate) struct Visit<'a> {
    pub(crate) ground: &'a Ground<'a>,
    pub(crate) key: Key,
    pub(crate) addr: u32,
    pub(crate) state: &'a State,
}

/// A point, and the instruction there.
#[derive(Drop)]
pub(crate) struct Site<'a> {
    pub(crate) ground: &'a Ground<'a>,
    pub(crate) key: Key,
    pub(crate) addr: u32,
    pub(crate) located: &'a Option<Located>,
}
