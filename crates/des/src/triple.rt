//! Three passes of DES over one block.
ghost use Rattle.std.specs.Prelude.{◌≡◌, replicate};
ghost use Rattle.des.specs.Des.{triple};

use crate::block::{run_forward, run_inverse};
use cipher::Sheet;

/// A block under three keys. The round keys lie in the lent sheet, and its guard wipes them.
#[tactic(auto, unfolding(crate::specs::Des::triple))]
pub fn triple_des(k1: u64, k2: u64, k3: u64, x: u64, sheet: &mut [u64; 16]) -> u64
    ensures value { result ≡ triple k1 k2 k3 x }
    ensures wiped { sheet.new ≡ replicate 16 0 }
{
    let guard = Sheet(sheet);
    let y = run_forward(k1, x, guard.0);
    let z = run_inverse(k2, y, guard.0);
    run_forward(k3, z, guard.0)
}
