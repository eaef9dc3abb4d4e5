// Which reduction a line tells.

/// The word behind `step`.
#[derive(Clone, Copy)]
pub(crate) enum StepKey {
    Small,
    Free,
    Fuse,
    Torus,
    Join,
    Tree,
}
