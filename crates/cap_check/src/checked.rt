// Scripts that are checked.
ghost use Rattle.std.specs.Prelude.{◌≡◌};
ghost use Rattle.cap_check.specs.Forms.{IsOfSound};

use cap_checked::CheckedObj;
use cap_grammar::{Item, Placed, SessionPart};
use cap_names::MorLit;
use std::marker::Model;

/// A script without faults, with numbers in place of the names of table objects, basis elements and arrows.
#[derive(Debug, PartialEq, Eq, Drop)]
pub struct Checked {
    form: cap_checked::Checked,
}

impl Model for Checked {
    ghost use Rattle.cap_checked.specs.declared.tree.Checked.{Checked};
    ghost use Rattle.cap_check.specs.Forms.{IsOfSound};

    ghost Value = { Checked };

    ghost view = { λ s. s.form };

    ghost invariant = { λ s. IsOfSound s.form };

    ghost inverse = { λ v. record { form = v } };
}

impl Checked {
    /// The checked form of a script without faults.
    pub(crate) fn new(form: cap_checked::Checked) -> Checked
        requires { IsOfSound form }
        ensures { result ≡ form }
    {
        Checked { form }
    }

    /// What stands before the sessions, in the order of the text.
    pub fn prelude(&self) -> &[Placed<Item<CheckedObj, MorLit>>]
        ensures value { result.now ≡ self.now.prelude }
        ensures sound { IsOfSound self.now }
    {
        self.form.prelude.as_slice()
    }

    /// The sessions, in the order of the text.
    pub fn sessions(&self) -> &[Placed<SessionPart<CheckedObj, MorLit>>]
        ensures { result.now ≡ self.now.sessions }
    {
        self.form.sessions.as_slice()
    }
}
