//! The volatile records.
ghost use Rattle.std.specs.Prelude.{◌≡◌};
ghost use Rattle.table.specs.Modes.{all_forgotten, blank, forgotten, record_of};

use crate::record::Table;
use blocks::Stage;
use mac::session::SessionKeys;
use volatile::{Session, Volatile};

/// A record when power first comes.
pub fn blank() -> Volatile
    ensures { result ≡ blank }
{
    Volatile {
        stage: Stage::Issuing,
        sound: false,
        session: Session::none(),
        keys: SessionKeys {
            first: [0; 8],
            second: [0; 8],
        },
    }
}

/// What a hopper keeps without power.
fn forgotten(was: Volatile) -> Volatile
    ensures { result ≡ forgotten was }
{
    Volatile {
        stage: was.stage,
        sound: was.sound,
        ..blank()
    }
}

impl Table {
    /// The record of a hopper; a blank one for a number past the last.
    pub fn record_of(&self, hopper: usize) -> Volatile
        ensures { result ≡ record_of self.now.records hopper }
    {
        self.records.get(hopper).copied().unwrap_or(blank())
    }

    /// Without power all four hoppers forget.
    pub fn forget(&mut self)
        ensures records { self.new.records ≡ all_forgotten self.old.records }
        ensures mode { self.new.mode ≡ self.old.mode }
    {
        self.records = self.records.map(forgotten);
    }
}
