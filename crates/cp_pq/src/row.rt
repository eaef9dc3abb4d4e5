// Tests of a row of nodes that have been compared with a set of leaves.
ghost use Rattle.std.specs.Prelude.{◌≡◌};
ghost use Rattle.std.specs.List.{list_all};
ghost use Rattle.cp_pq.specs.Founds.{is_out, is_in, found_sorted, found_run};

use crate::found::Found;

/// Whether all nodes are outside.
pub fn are_out(founds: &[Found]) -> bool
    ensures { result ≡ list_all is_out founds.now }
{
    for found in founds {
        if !found.is_out() {
            return false;
        }
    }
    true
}

/// Whether all nodes are inside.
pub fn are_in(founds: &[Found]) -> bool
    ensures { result ≡ list_all is_in founds.now }
{
    for found in founds {
        if !found.is_in() {
            return false;
        }
    }
    true
}

/// Whether the row is outside, then one node of any kind, then inside.
pub fn is_sorted(founds: &[Found]) -> bool
    ensures { result ≡ found_sorted founds.now }
{
    let mut entered = false;
    for found in founds {
        if entered && !found.is_in() {
            return false;
        }
        entered |= !found.is_out();
    }
    true
}

/// Whether the row is outside, then one node of any kind, then inside, then one of any kind, then outside.
pub fn is_run(founds: &[Found]) -> bool
    ensures { result ≡ found_run founds.now }
{
    let mut entered = false;
    let mut left = false;
    for found in founds {
        if left && !found.is_out() {
            return false;
        }
        left |= entered && !found.is_in();
        entered |= !found.is_out();
    }
    true
}
