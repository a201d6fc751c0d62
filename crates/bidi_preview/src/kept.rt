//! A character that is kept, as the rules from X10 on read it.
ghost use Rattle.std.specs.Prelude.{◌≡◌, ◌≤◌, IsTrue};
ghost use Rattle.bidi_order.specs.Explicit.{KeptCharacter, SequenceCharacter};
ghost use Rattle.bidi_order.specs.Sequences.{enters_isolate};
ghost use Rattle.bidi_preview.specs.Roles.{isolate_role};

use bidi_class::{Bracket, Class};
use std::marker::Model;

/// What a kept character does to isolates, by the character itself, also under an override.
#[derive(Clone, Copy, Debug)]
pub(crate) enum Role {
    Initiates,
    Terminates,
    Neither,
}

/// A character that X9 keeps.
#[derive(Debug, Drop)]
pub(crate) struct Kept {
    level: u8,
    role: Role,
    class: Class,
    bracket: Option<Bracket>,
}

impl Model for Kept {
    ghost use Rattle.std.specs.Prelude.{◌≤◌};
    ghost use Rattle.bidi_order.specs.Explicit.{KeptCharacter};
    ghost use Rattle.bidi_preview.specs.Roles.{isolate_role};

    ghost Value = { KeptCharacter };

    ghost view = { λ k. record {
      level = k.level;
      role = isolate_role k.role;
      resolved = record { class = k.class; bracket = k.bracket };
    } };

    ghost invariant = { λ k. k.level ≤ 125 };
}

impl Kept {
    pub(crate) fn new(level: u8, role: Role, class: Class, bracket: Option<Bracket>) -> Kept
        requires { level ≤ 125 }
        ensures { result ≡ record {
          level = level;
          role = isolate_role role;
          resolved = record { class = class; bracket = bracket };
        } }
    {
        Kept {
            level,
            role,
            class,
            bracket,
        }
    }

    pub(crate) fn level(&self) -> u8
        ensures value { result ≡ self.now.level }
        ensures bound { result ≤ 125 }
    {
        self.level
    }

    pub(crate) fn initiates(&self) -> bool
        ensures { result ≡ enters_isolate self.now.role }
    {
        match self.role {
            Role::Initiates => true,
            Role::Terminates | Role::Neither => false,
        }
    }

    pub(crate) fn role(&self) -> Role
        ensures { isolate_role result ≡ self.now.role }
    {
        self.role
    }

    pub(crate) fn class(&self) -> Class
        ensures { result ≡ self.now.resolved.class }
    {
        self.class
    }

    pub(crate) fn bracket(&self) -> Option<Bracket>
        ensures { result ≡ self.now.resolved.bracket }
    {
        self.bracket
    }
}
