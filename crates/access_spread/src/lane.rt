// Edges that accesses leave out by choice.

ghost use Rattle.std.specs.Prelude.{◌≡◌};
ghost use Rattle.access_spread.specs.Graphs.{takes};

/// Which accesses take an edge, where its gate lets them pass.
#[derive(Clone, Copy, Debug)]
pub enum Lane {
    /// All.
    Open,
    /// Those that are wide.
    Wide,
    /// None.
    Shut,
}

/// Whether an access takes an edge, by the lanes of the edges; one that has none is taken by all.
pub fn takes(lanes: &[Lane], edge: usize, wide: bool) -> bool
    ensures { result ≡ takes lanes.now edge wide }
{
    if edge >= lanes.len() {
        return true;
    }
    match lanes[edge] {
        Lane::Open => true,
        Lane::Wide => wide,
        Lane::Shut => false,
    }
}
