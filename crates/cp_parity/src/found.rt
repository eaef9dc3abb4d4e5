// What a search through equations has found.

// A var that the search has found, in the order of finding.
#[derive(Clone, Copy, Debug)]
pub(crate) struct Found {
    pub(crate) var: usize,
    // The bit that the var has where the root of its search has bit 0.
    pub(crate) bit: bool,
    // The place, in the order of finding, of the var that it was found from. A root has its own place.
    pub(crate) up: usize,
    // The place of the equation that it was found by. That of a root means nothing.
    pub(crate) link: usize,
}
