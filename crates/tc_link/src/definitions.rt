// The definition of a global symbol.

/// The first definition of a name as a global symbol: the number of its object, its section and its
/// offset. `is_twice` is set if another object defines the name too.
#[derive(Clone, Copy)]
pub(crate) struct Definition {
    pub(crate) object: usize,
    pub(crate) section: u16,
    pub(crate) offset: u32,
    pub(crate) is_twice: bool,
}
