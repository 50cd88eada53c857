//! The text of a certificate, written.

ghost use Rattle.std.specs.Prelude.{◌≡◌, ◌<◌, ◌^◌, ◌++◌, [], ◌∷◌, Ok, length, map, OnOk, IfOk};
ghost use Rattle.std.specs.List.{All, flat_map};
ghost use Rattle.mob_sets.specs.Tidy.{AreTidy};
ghost use Rattle.cert_text.specs.Spelled.{header_line, winner_line, count_line, loose_line, row_line, node_lines, IsInnerOrLeaf, AreInnerOrLeaves, lines_text, cert_text};
ghost use Rattle.cert_text.specs.Texts.{cert_of};
ghost use Rattle.cert_text.specs.Writable.{IsWritable};

use crate::digits::put_hex;
use crate::labels::{Label, put_position};
use cha_board::{Color, SquareSet, put_square};
use cha_cert::{Cert, Node, Part};
use cha_list::{NoMemory, Text};
use mob_sets::{SetRow, Sets};
use std::alloc::Global;

/// Writes `nodes N`.
#[tactic(auto, unfolding(crate::specs::Spelled::count_line))]
pub fn put_count(alloc: Global, count: u64, text: &mut Text) -> Result<(), NoMemory>
    ensures { OnOk result (text.new ≡ text.old ++ count_line count) }
{
    text.append(b"nodes ")?;
    text.append_decimal(alloc, count)
}

/// Writes `loose H`.
#[tactic(auto, unfolding(crate::specs::Spelled::loose_line))]
pub fn put_loose(loose: SquareSet, text: &mut Text) -> Result<(), NoMemory>
    ensures { OnOk result (text.new ≡ text.old ++ loose_line loose) }
{
    text.append(b"loose ")?;
    put_hex(16, loose.bits(), text)
}

/// Writes `reach SQUARE KIND H`.
#[tactic(auto, unfolding(crate::specs::Spelled::row_line))]
pub fn put_row(row: SetRow, text: &mut Text) -> Result<(), NoMemory>
    ensures text { OnOk result (text.new ≡ text.old ++ row_line row) }
    ensures known { row.origin < 64 }
{
    // The number of a square tells that it is below 64.
    let _number = row.origin.index();
    text.append(b"reach ")?;
    put_square(row.origin, text)?;
    text.push(b' ')?;
    text.push(row.kind.letter())?;
    text.push(b' ')?;
    put_hex(16, row.squares.bits(), text)
}

/// Writes the lines of rows.
fn put_rows(rows: &[SetRow], text: &mut Text) -> Result<(), NoMemory>
    ensures text { OnOk result (text.new ≡ text.old ++ lines_text (map row_line rows.now)) }
    ensures known { OnOk result (All (λ row. row.origin < 64) rows.now) }
{
    for row in rows {
        put_row(*row, text)?;
        text.push(b'\n')?;
    }
    Ok(())
}

/// Writes what is behind a leaf's line.
#[tactic(auto, unfolding(crate::specs::Spelled::lines_text))]
pub fn put_sets(sets: &Sets, text: &mut Text) -> Result<(), NoMemory>
    ensures text { OnOk result (text.new ≡ text.old ++ lines_text (loose_line sets.now.loose ∷ map row_line sets.now.rows)) }
    ensures tidy { OnOk result (AreTidy sets.now.rows) }
    ensures known { OnOk result (All (λ row. row.origin < 64) sets.now.rows) }
    ensures width { OnOk result (length sets.now.loose ≡ 64) }
{
    put_loose(sets.loose(), text)?;
    text.push(b'\n')?;
    put_rows(sets.rows(), text)
}

/// Writes the lines of a node.
#[tactic(auto, unfolding(crate::specs::Spelled::lines_text))]
fn put_node(alloc: Global, node: &Node, text: &mut Text) -> Result<(), NoMemory>
    requires { IsInnerOrLeaf node.now.part }
    ensures text { OnOk result (text.new ≡ text.old ++ lines_text (node_lines node.now)) }
    ensures writable { OnOk result (IsWritable node.now) }
{
    node.position.known();
    match &node.part {
        Part::Inner => {
            put_position(alloc, Label::Inner, &node.position, text)?;
            text.push(b'\n')?;
            Ok(())
        }
        Part::Leaf(sets) => {
            put_position(alloc, Label::Leaf, &node.position, text)?;
            text.push(b'\n')?;
            put_sets(sets, text)
        }
        Part::Men(_) => unreachable!(),
    }
}

/// Writes the lines of nodes.
fn put_nodes(alloc: Global, nodes: &[Node], text: &mut Text) -> Result<(), NoMemory>
    requires { AreInnerOrLeaves nodes.now }
    ensures text { OnOk result (text.new ≡ text.old ++ lines_text (flat_map node_lines nodes.now)) }
    ensures writable { OnOk result (All IsWritable nodes.now) }
{
    for node in nodes {
        put_node(alloc, node, text)?;
    }
    Ok(())
}

/// Writes the first three lines.
#[tactic(auto, unfolding(crate::specs::Spelled::lines_text, crate::specs::Spelled::winner_line))]
fn put_head(alloc: Global, winner: Color, count: u64, text: &mut Text) -> Result<(), NoMemory>
    ensures { OnOk result (text.new ≡ text.old ++ lines_text (header_line ∷ winner_line winner ∷ count_line count ∷ [])) }
{
    text.append(b"cha-cert 1\nwinner ")?;
    match winner {
        Color::White => text.append(b"w\n")?,
        Color::Black => text.append(b"b\n")?,
    }
    put_count(alloc, count, text)?;
    text.push(b'\n')?;
    Ok(())
}

/// The text of a certificate that no series of legal moves mates for a side, whose nodes are inner ones and leaves. It is read
/// as the same again.
pub fn write(alloc: Global, winner: Color, cert: &Cert) -> Result<Text, NoMemory>
    requires some { 0 < length cert.now }
    requires few { length cert.now < 2 ^ 32 }
    requires inner_or_leaf { AreInnerOrLeaves cert.now }
    ensures text { IfOk result (λ text. text ≡ cert_text winner cert.now) }
    ensures read_again { IfOk result (λ text. cert_of text ≡ Ok (record { winner = winner; cert = cert.now })) }
{
    let mut text = Text::new(alloc);
    let nodes = cert.nodes();
    put_head(alloc, winner, nodes.len() as u64, &mut text)?;
    put_nodes(alloc, nodes, &mut text)?;
    text.append(b"end\n")?;
    Ok(text)
}
