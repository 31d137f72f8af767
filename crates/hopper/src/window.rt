//! The cells of a hopper.
ghost use Rattle.hopper.specs.Windows.{all_good, cell_held, stage_in, view as public_view};
ghost use Rattle.std.specs.Prelude.{◌≡◌};

use blocks::{CELLS, CONFIG_CELL, COUNTER_CELL, Config, Stage, counter_now, counter_stored};
use decision::View;
use memory::cell::Cell;
use volatile::Volatile;

/// The bytes of a cell; zeros where it is torn or there is none.
pub fn held(cells: &[Cell; CELLS], cell: usize) -> [u8; 16]
    ensures { result ≡ cell_held cells.now cell }
{
    match cells.get(cell) {
        Some(Cell::Good(bytes)) => *bytes,
        Some(Cell::Torn) | None => [0; 16],
    }
}

/// The stage that the cells set.
pub fn stage_in(cells: &[Cell; CELLS]) -> Stage
    ensures { result ≡ stage_in cells.now }
{
    match cells[CONFIG_CELL] {
        Cell::Good(bytes) => Config { bytes }.stage(),
        Cell::Torn => Stage::Issuing,
    }
}

/// Whether all cells are good.
pub fn is_sound(cells: &[Cell; CELLS]) -> bool
    ensures { result ≡ all_good cells.now }
{
    cells.iter().all(|cell| matches!(cell, Cell::Good(_)))
}

/// What the decisions of a hopper rest on.
pub fn view(cells: &[Cell; CELLS], volatile: &Volatile) -> View
    ensures { result ≡ public_view cells.now volatile.now }
{
    let config = Config {
        bytes: held(cells, CONFIG_CELL),
    };
    let stored = counter_stored(&held(cells, COUNTER_CELL));
    View {
        stage: volatile.stage,
        sound: volatile.sound,
        seeded: volatile.session.is_seeded(),
        authenticated: volatile.session.authenticated,
        config,
        counter: counter_now(volatile.stage, stored),
    }
}
