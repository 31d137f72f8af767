//! The block STATE.
ghost use Rattle.volatile.specs.Sessions.{is_seeded, no_session, now_deaf, state_block, with_rc, with_state};
ghost use Rattle.std.specs.Prelude.{◌≡◌};

use crate::radio::Radio;
use crate::record::Session;

impl Session {
    /// The session when power comes: RC unwritten, not authenticated, open.
    pub fn none() -> Session
        ensures { result ≡ no_session }
    {
        Session {
            rc: None,
            authenticated: false,
            radio: Radio::Open,
        }
    }

    /// Whether RC is written.
    pub fn is_seeded(&self) -> bool
        ensures { result ≡ is_seeded self.now.rc }
    {
        self.rc.is_some()
    }

    /// STATE as it reads.
    #[tactic(auto, unfolding(crate::specs::Sessions::state_block))]
    pub fn state_block(&self) -> [u8; 16]
        ensures { result ≡ state_block self.now }
    {
        let mut block = [0; 16];
        block[0] = u8::from(self.authenticated);
        block[8] = u8::from(self.radio.is_poll_shut());
        block
    }

    /// STATE is written.
    pub fn write_state(&mut self, sent: &[u8; 16])
        ensures { self.new ≡ with_state self.old sent.now }
    {
        self.authenticated = sent[0] == 0x01;
        self.radio = self.radio.with_polling(sent[8] == 0x01);
    }

    /// RC is written.
    pub fn write_rc(&mut self, sent: [u8; 16])
        ensures { self.new ≡ with_rc self.old sent }
    {
        self.rc = Some(sent);
    }

    /// The hopper turns deaf.
    pub fn deafen(&mut self)
        ensures { self.new ≡ now_deaf self.old }
    {
        self.radio = self.radio.deafened();
    }
}
