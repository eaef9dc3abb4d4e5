// What stands under a name.

/// What stands under a name: an item, or none.
#[derive(Debug, Drop)]
pub struct Entry<T> {
    pub name: usize,
    pub item: Option<T>,
}
