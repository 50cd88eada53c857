//! The men that a side has beside its king.

ghost use Rattle.std.specs.Prelude.{OnErr, IfOk};
ghost use Rattle.mob_small.specs.Small.{HasBeside};
ghost use Rattle.mob_small.specs.MateFreeKinds.{HasSeveral};

use cha_board::{Color, Kind, Position};

/// A side has several men beside its king.
#[derive(Clone, Copy, Debug, PartialEq, Eq)]
pub(crate) struct Several;

/// The kind of the one man that a side has beside its king, or None where it has only its king.
pub(crate) fn kind_beside(position: &Position, of: Color) -> Result<Option<Kind>, Several>
    ensures ok { IfOk result (λ kind. HasBeside position.now.men of kind) }
    ensures err { OnErr result (HasSeveral position.now.men of) }
{
    position.known();
    let beside = position.non_kings(of);
    match beside.first() {
        None => Ok(None),
        Some(at) => {
            if !beside.without(at).is_empty() {
                return Err(Several);
            }
            match position.man(at) {
                Some(man) => Ok(Some(man.kind)),
                None => unreachable!(),
            }
        }
    }
}
