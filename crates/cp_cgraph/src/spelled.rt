// Ids that strings spell.
ghost use Rattle.std.specs.Prelude.{◌≡◌};
ghost use Rattle.cp_cgraph.specs.Entries.{without_v, spelled_id};

use cp_gml::integer;

// The text without the small v at its front.
fn without_v(text: &[u8]) -> &[u8]
    ensures { result.now ≡ without_v text.now }
{
    match text {
        [b'v', rest @ ..] => rest,
        _ => text,
    }
}

// The id that a text spells: an optional small v, an optional sign and digits.
pub(crate) fn spelled_id(text: &[u8]) -> Option<i32>
    ensures { result ≡ spelled_id text.now }
{
    integer(without_v(text))
}
