// The certificate that is drawn or reported.
use elf_image::Image;
use packed_cert::Cert;
use tcd_plan::Plan;
use value_domain::Bounds;

/// A certificate with its image and its plan, and the limits on values in its format.
#[derive(Drop)]
pub(crate) struct Judged<'a> {
    pub(crate) bounds: &'a Bounds,
    pub(crate) image: &'a Image,
    pub(crate) plan: &'a Plan,
    pub(crate) cert: &'a Cert,
}
