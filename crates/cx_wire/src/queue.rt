//! One queue of messages.
ghost use Rattle.std.specs.Prelude.{◌≡◌, ◌<◌, ◌++◌, ◌∷◌, [], length, OnOk, OnErr, IfErr};
ghost use Rattle.cx_wire.specs.Messages.{first_head, IsCounted};

use crate::mail::{Head, Mail};
use std::alloc::Global;
use std::collections::VecDeque;
use std::marker::Model;

/// The messages from one part to another. Contracts see the list, the first one in front.
#[derive(Debug, Drop)]
pub struct Queue {
    mails: VecDeque<Mail>,
}

impl Model for Queue {
    ghost use Rattle.std.specs.Prelude.{All, List};
    ghost use Rattle.cx_wire.specs.Messages.{IsCounted};
    ghost use Rattle.cx_wire.specs.declared.mail.Mail.{Mail};

    ghost Value = { List Mail };

    ghost view = { λ q. q.mails.items };

    ghost invariant = { λ q. All IsCounted q.mails.items };
}

impl Queue {
    /// A queue without messages.
    pub fn new(alloc: Global) -> Self
        ensures { result ≡ [] }
    {
        Queue {
            mails: VecDeque::new(alloc),
        }
    }

    /// Adds a message at the end, or hands it back when out of memory.
    pub fn add(&mut self, mail: Mail) -> Result<(), Mail>
        requires { IsCounted mail }
        ensures ok { OnOk result (self.new ≡ self.old ++ mail ∷ []) }
        ensures err { OnErr result (self.new ≡ self.old) }
        ensures back { IfErr result (λ m. m ≡ mail) }
    {
        match self.mails.push_back(mail) {
            Ok(()) => Ok(()),
            Err(refused) => Err(refused.value),
        }
    }

    /// The head of the message in front.
    pub fn front(&self) -> Option<Head>
        ensures { result ≡ first_head self.now }
    {
        match self.mails.front() {
            Some(mail) => Some(mail.head),
            None => None,
        }
    }

    /// Takes the message in front.
    pub fn take(&mut self) -> Mail
        requires { 0 < length self.old }
        ensures taken { self.old ≡ result ∷ self.new }
        ensures counted { IsCounted result }
    {
        match self.mails.pop_front() {
            Some(mail) => mail,
            None => unreachable!(),
        }
    }
}
