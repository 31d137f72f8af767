//! Permission: whether a block may be written, and whether that needs a MAC.
ghost use Rattle.blocks.specs.Permissions.{asks_mac, may_write, permission};
ghost use Rattle.blocks.specs.Rules.{PermissionRules};
ghost use Rattle.blocks.specs.Stages.{is_issued};
ghost use Rattle.std.specs.Prelude.{◌≡◌};

use crate::config::Config;
use crate::stage::Stage;

#[derive(Clone, Copy, PartialEq, Eq)]
pub enum Permission {
    ReadOnly,
    ReadWrite,
    /// may be written, but only with a MAC
    ReadWriteMac,
}

impl Stage {
    /// Whether the hopper is issued.
    pub fn is_issued(self) -> bool
        ensures { result ≡ is_issued self }
    {
        self == Stage::Issued
    }
}

impl Config {
    /// The permission of a block.
    pub fn permission(&self, block: u16, stage: Stage) -> Permission
        ensures value { result ≡ permission block stage self.now.bytes }
        ensures rules { PermissionRules block stage self.now.bytes result }
    {
        let issued = stage.is_issued();
        // The project writes permission as one match over the ranges of block numbers, with guards.
        match block {
            0x00..=0x0E if self.opens_scratch(block) && self.signs_scratch(block) =>
                Permission::ReadWriteMac,
            0x00..=0x0E if self.opens_scratch(block) => Permission::ReadWrite,
            0x80 => Permission::ReadWrite,
            0x82 | 0x84 if !issued => Permission::ReadWrite,
            0x86..=0x87 if !issued => Permission::ReadWrite,
            0x86..=0x87 if self.opens_keys() => Permission::ReadWriteMac,
            0x88 if !issued || self.opens_config() => Permission::ReadWrite,
            0x92 if self.signs_state() => Permission::ReadWriteMac,
            0x92 => Permission::ReadWrite,
            _ => Permission::ReadOnly,
        }
    }
}
