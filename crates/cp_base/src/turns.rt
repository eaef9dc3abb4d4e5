// Whether two lists are one cyclic list, and where the least item of a list stands.
ghost use Rattle.std.specs.Prelude.{◌≡◌, ◌<◌, ◌↔◌, IsTrue, length};
ghost use Rattle.cp_lists.specs.Turns.{IsTurn, IsTurnBy, least_place};

// Whether `ys` is `xs` with its first `i` items moved to the end.
fn is_turn_by(xs: &[usize], ys: &[usize], i: usize) -> bool
    requires place { i < length xs.now }
    requires length { length xs.now ≡ length ys.now }
    ensures { IsTrue result ↔ IsTurnBy xs.now ys.now i }
{
    let (front, back) = xs.split_at(i);
    let (first, second) = ys.split_at(back.len());
    first == back && second == front
}

/// Whether `ys` is a turn of `xs`.
pub(crate) fn is_turn(xs: &[usize], ys: &[usize]) -> bool
    ensures { IsTrue result ↔ IsTurn xs.now ys.now }
{
    if xs.len() != ys.len() {
        return false;
    }
    if xs.is_empty() {
        return true;
    }
    for i in 0..xs.len() {
        if is_turn_by(xs, ys, i) {
            return true;
        }
    }
    false
}

/// The place of the first of the least items, or 0 where there is none.
pub(crate) fn least_place(items: &[usize]) -> usize
    ensures { result ≡ least_place items.now }
{
    let mut place = 0;
    for i in 0..items.len() {
        if items[i] < items[place] {
            place = i;
        }
    }
    place
}
