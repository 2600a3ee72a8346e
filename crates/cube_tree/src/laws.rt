//! What the definition of cubes promises.

ghost use Rattle.std.specs.Prelude.{ℕ, List};
ghost use Rattle.cube_tree.specs.Cubes.{SplitAll};

/// Every assignment makes all literals of exactly one cube true, whatever the variables are.
pub fn cubes_split_all()
    ensures { (variables : List ℕ) → SplitAll variables }
{}
