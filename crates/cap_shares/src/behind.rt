// The state of a category as it stands behind a turn.
ghost use Rattle.std.specs.Prelude.{◌≡◌};

use cap_data::{MorData, ObjData};
use cap_desk::Ledger;
use cap_history::Entry;
use cap_offer::AnyCat;
use cap_turn::Logged;

/// A category's state behind a turn: its list is the history, and its label the category.
#[derive(Drop)]
pub struct Behind {
    pub ledger: Ledger<AnyCat>,
}

impl Logged for Behind {
    type Entry = Entry<ObjData, MorData>;

    type Label = AnyCat;

    ghost log = { λ b. b.ledger.entries };

    ghost label = { λ b. b.ledger.offer };

    fn entries(&self) -> u32 {
        self.ledger.history().len() as u32
    }
}
