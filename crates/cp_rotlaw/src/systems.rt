// What several laws need of rotation systems.
ghost use Rattle.std.specs.Prelude.{◌≡◌, ◌<◌, ◌^◌};
ghost use Rattle.cp_faces.specs.Twins.{twin};

// The other dart of the same edge.
pub(crate) fn other_dart(d: usize) -> usize
    requires { d < 2 ^ 60 }
    ensures { result ≡ twin d }
{
    if d % 2 == 0 { d + 1 } else { d - 1 }
}
