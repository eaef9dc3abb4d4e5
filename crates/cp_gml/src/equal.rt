// Equal texts, values, entries and lists. The functions that recurse stand beside the impls, once for
// each level of the lists.
ghost use Rattle.std.specs.Prelude.{◌≡◌, ◌↔◌, IsTrue};
ghost use Rattle.std.specs.Cmp.{partial_equiv_from_equiv};
ghost use Rattle.std.specs.Str.{bytes_eq};
ghost use Rattle.std.proofs.lemmas.Cmp.{nat_list_eq_equiv};
ghost use Rattle.cp_gml.specs.Equal.{entry_eq, value_eq, list_eq, entry_eq_equiv, value_eq_equiv, list_eq_equiv};

use crate::tree::{Entry, GmlList, GmlValue, Text};

impl PartialEq for Text {
    ghost eq = { bytes_eq };

    ghost laws = { partial_equiv_from_equiv nat_list_eq_equiv };

    fn eq(&self, other: &Text) -> bool
        ensures value { result ≡ bytes_eq self.now other.now }
        ensures same { IsTrue result ↔ self.now ≡ other.now }
    {
        self.bytes() == other.bytes()
    }
}

impl Eq for Text {
    ghost laws = { nat_list_eq_equiv };
}

#[cycle(equal)]
fn are_equal_values(value: &GmlValue, other: &GmlValue) -> bool
    ensures { IsTrue result ↔ value.now ≡ other.now }
{
    match value {
        GmlValue::Int(m) => match other {
            GmlValue::Int(n) => m == n,
            _ => false,
        },
        GmlValue::Number => matches!(other, GmlValue::Number),
        GmlValue::Str(text) => match other {
            GmlValue::Str(other_text) => text == other_text,
            _ => false,
        },
        GmlValue::List(list) => match other {
            GmlValue::List(other_list) => are_equal_lists(list, other_list),
            _ => false,
        },
    }
}

#[cycle(equal)]
fn are_equal_entries(entry: &Entry, other: &Entry) -> bool
    ensures { IsTrue result ↔ entry.now ≡ other.now }
{
    entry.key == other.key
        && entry.key_at == other.key_at
        && entry.value_at == other.value_at
        && are_equal_values(&entry.value, &other.value)
}

#[cycle(equal)]
fn are_equal_lists(list: &GmlList, other: &GmlList) -> bool
    ensures { IsTrue result ↔ list.now ≡ other.now }
{
    let entries = list.entries.items();
    let others = other.entries.items();
    if list.end != other.end || entries.len() != others.len() {
        return false;
    }
    'entries: for i in 0..entries.len() {
        if !are_equal_entries(&entries[i], &others[i]) {
            return false;
        }
    }
    true
}

impl PartialEq for GmlValue {
    ghost eq = { value_eq };

    ghost laws = { partial_equiv_from_equiv value_eq_equiv };

    fn eq(&self, other: &GmlValue) -> bool
        ensures value { result ≡ value_eq self.now other.now }
        ensures same { IsTrue result ↔ self.now ≡ other.now }
    {
        are_equal_values(self, other)
    }
}

impl Eq for GmlValue {
    ghost laws = { value_eq_equiv };
}

impl PartialEq for Entry {
    ghost eq = { entry_eq };

    ghost laws = { partial_equiv_from_equiv entry_eq_equiv };

    fn eq(&self, other: &Entry) -> bool
        ensures value { result ≡ entry_eq self.now other.now }
        ensures same { IsTrue result ↔ self.now ≡ other.now }
    {
        are_equal_entries(self, other)
    }
}

impl Eq for Entry {
    ghost laws = { entry_eq_equiv };
}

impl PartialEq for GmlList {
    ghost eq = { list_eq };

    ghost laws = { partial_equiv_from_equiv list_eq_equiv };

    fn eq(&self, other: &GmlList) -> bool
        ensures value { result ≡ list_eq self.now other.now }
        ensures same { IsTrue result ↔ self.now ≡ other.now }
    {
        are_equal_lists(self, other)
    }
}

impl Eq for GmlList {
    ghost laws = { list_eq_equiv };
}
