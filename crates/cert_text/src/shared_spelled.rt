//! The text of a shared certificate, written.

ghost use Rattle.std.specs.Prelude.{◌≡◌, ◌<◌, ◌^◌, ◌++◌, [], ◌∷◌, Ok, length, OnOk, IfOk};
ghost use Rattle.std.specs.List.{All, flat_map};
ghost use Rattle.cert_text.specs.Spelled.{winner_line, count_line, lines_text};
ghost use Rattle.cert_text.specs.SharedSpelled.{sets_line, shared_leaf_line, set_lines, shared_node_lines, shared_header_line, shared_text};
ghost use Rattle.cert_text.specs.SharedTexts.{shared_cert_of};
ghost use Rattle.cert_text.specs.Writable.{IsWritableSets, HasValidPosition};

use crate::labels::{Label, put_position};
use crate::spelled::{put_count, put_sets};
use cha_board::{Color, Position};
use cha_cert::{SharedCert, SharedNode, SharedPart};
use cha_list::{NoMemory, Text};
use mob_sets::Sets;
use std::alloc::Global;

/// Writes `sets M`.
#[tactic(auto, unfolding(crate::specs::SharedSpelled::sets_line))]
pub fn put_sets_count(alloc: Global, count: u64, text: &mut Text) -> Result<(), NoMemory>
    ensures { OnOk result (text.new ≡ text.old ++ sets_line count) }
{
    text.append(b"sets ")?;
    text.append_decimal(alloc, count)
}

/// Writes `leaf I FEN`.
#[tactic(auto, unfolding(crate::specs::SharedSpelled::shared_leaf_line))]
pub fn put_shared_leaf(
    alloc: Global,
    number: u32,
    position: &Position,
    text: &mut Text,
) -> Result<(), NoMemory>
    ensures { OnOk result (text.new ≡ text.old ++ shared_leaf_line number position.now) }
{
    let fen = cha_fen::write(alloc, position)?;
    text.append(b"leaf ")?;
    text.append_decimal(alloc, u64::from(number))?;
    text.push(b' ')?;
    text.append(fen.items())
}

/// Writes the line of a node.
#[tactic(auto, unfolding(crate::specs::Spelled::lines_text))]
fn put_shared_node(alloc: Global, node: &SharedNode, text: &mut Text) -> Result<(), NoMemory>
    ensures text { OnOk result (text.new ≡ text.old ++ lines_text (shared_node_lines node.now)) }
    ensures valid { OnOk result (HasValidPosition node.now) }
{
    let position = node.position.position();
    position.known();
    match node.part {
        SharedPart::Inner => put_position(alloc, Label::Inner, &position, text)?,
        SharedPart::Leaf(number) => put_shared_leaf(alloc, number, &position, text)?,
        SharedPart::Men(reason) => put_position(alloc, Label::Men(reason), &position, text)?,
    }
    text.push(b'\n')?;
    Ok(())
}

/// Writes the lines of nodes.
fn put_shared_nodes(alloc: Global, nodes: &[SharedNode], text: &mut Text) -> Result<(), NoMemory>
    ensures text { OnOk result (text.new ≡ text.old ++ lines_text (flat_map shared_node_lines nodes.now)) }
    ensures valid { OnOk result (All HasValidPosition nodes.now) }
{
    for node in nodes {
        put_shared_node(alloc, node, text)?;
    }
    Ok(())
}

/// Writes the lines of sets.
fn put_all_sets(all: &[Sets], text: &mut Text) -> Result<(), NoMemory>
    ensures text { OnOk result (text.new ≡ text.old ++ lines_text (flat_map set_lines all.now)) }
    ensures writable { OnOk result (All IsWritableSets all.now) }
{
    for sets in all {
        put_sets(sets, text)?;
    }
    Ok(())
}

/// Writes the first three lines.
#[tactic(auto, unfolding(crate::specs::Spelled::lines_text, crate::specs::Spelled::winner_line))]
fn put_shared_head(alloc: Global, winner: Color, sets: u64, text: &mut Text) -> Result<(), NoMemory>
    ensures { OnOk result (text.new ≡ text.old ++ lines_text (shared_header_line ∷ winner_line winner ∷ sets_line sets ∷ [])) }
{
    text.append(b"cha-cert 2\nwinner ")?;
    match winner {
        Color::White => text.append(b"w\n")?,
        Color::Black => text.append(b"b\n")?,
    }
    put_sets_count(alloc, sets, text)?;
    text.push(b'\n')?;
    Ok(())
}

/// Writes the line that counts the nodes.
#[tactic(auto, unfolding(crate::specs::Spelled::lines_text))]
fn put_node_count(alloc: Global, count: u64, text: &mut Text) -> Result<(), NoMemory>
    ensures { OnOk result (text.new ≡ text.old ++ lines_text (count_line count ∷ [])) }
{
    put_count(alloc, count, text)?;
    text.push(b'\n')?;
    Ok(())
}

/// The text of a shared certificate that no series of legal moves mates for a side (certificate text, version 2: this
/// project).
///
/// ```text
/// cha-cert 2
/// winner w
/// sets 1
/// loose 1000000000000010
/// reach e1 K ffffffffffffffff
/// reach e8 K ffffffffffffffff
/// nodes 1
/// leaf 0 4k3/8/8/8/8/8/8/4K3 w - -
/// end
/// ```
///
/// Each line ends with a line feed. The sets come first, each once, and a leaf names its sets by their number, from 0. A
/// node whose men show it alone has the word of the `Reason` and the position, as `small FEN`. The text is read as the same shared
/// certificate again.
pub fn write2(alloc: Global, winner: Color, cert: &SharedCert) -> Result<Text, NoMemory>
    requires some { 0 < length cert.now.nodes }
    requires few { length cert.now.nodes < 2 ^ 32 }
    requires few_sets { length cert.now.sets < 2 ^ 32 }
    ensures text { IfOk result (λ text. text ≡ shared_text winner cert.now) }
    ensures read_again { IfOk result (λ text. shared_cert_of text ≡ Ok (record { winner = winner; cert = cert.now })) }
{
    let mut text = Text::new(alloc);
    let sets = cert.sets();
    let nodes = cert.nodes();
    put_shared_head(alloc, winner, sets.len() as u64, &mut text)?;
    put_all_sets(sets, &mut text)?;
    put_node_count(alloc, nodes.len() as u64, &mut text)?;
    put_shared_nodes(alloc, nodes, &mut text)?;
    text.append(b"end\n")?;
    Ok(text)
}
