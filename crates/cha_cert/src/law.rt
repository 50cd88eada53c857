//! The law of certificates.

ghost use Rattle.std.specs.Prelude.{List};
ghost use Rattle.cha_board.specs.declared.men.Color.{Color};
ghost use Rattle.cha_board.specs.Board.{Board};
ghost use Rattle.cha_moves.specs.Ends.{IsUnwinnable};
ghost use Rattle.cha_cert.specs.declared.nodes.Node.{Node};
ghost use Rattle.cha_cert.specs.Certificates.{IsValidCert};

/// The law: where a certificate is valid for a position and a side, no series of legal moves from the position mates for
/// the side. At a leaf its sets show it, and at an inner node, which is no mate, each move leads to a node again.
#[tactic(auto, using(crate::proofs::Bounded::valid_is_unwinnable))]
pub fn valid_means_unwinnable()
    ensures { (p : Board) (w : Color) (nodes : List Node) → IsValidCert p w nodes → IsUnwinnable p w }
{}
