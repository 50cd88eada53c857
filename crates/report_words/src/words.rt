//! The words for the status of a position.

ghost use Rattle.std.specs.Prelude.{◌≡◌, ◌++◌, OnOk};
ghost use Rattle.report_words.specs.Words.{status_text};

use cha_list::{NoMemory, Text};
use cha_outcome::PositionStatus;

/// Appends the word for a status.
#[tactic(auto, unfolding(crate::specs::Words::status_text))]
pub fn put_status(status: PositionStatus, text: &mut Text) -> Result<(), NoMemory>
    ensures { OnOk result (text.new ≡ text.old ++ status_text status) }
{
    match status {
        PositionStatus::Checkmate => text.append(b"checkmate"),
        PositionStatus::Stalemate => text.append(b"stalemate"),
        PositionStatus::Dead => text.append(b"dead"),
        PositionStatus::Live => text.append(b"live"),
        PositionStatus::Unclear => text.append(b"unclear"),
    }
}
