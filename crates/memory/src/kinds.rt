//! The two kinds, by the cells that they hold.
ghost use Rattle.std.specs.Prelude.{◌≡◌};
ghost use Rattle.memory.specs.Kinds.{checked_cells, plain_cells};

use crate::BlockMemory;
use crate::checked::Checked;
use crate::plain::Plain;

/// The cells of a plain memory are those that the plain layout finds in its bytes, and of a checked one the checked layout.
pub fn kinds_hold_their_cells()
    ensures plain { ⟦<Plain as BlockMemory>⟧.cells ≡ plain_cells }
    ensures checked { ⟦<Checked as BlockMemory>⟧.cells ≡ checked_cells }
{}
