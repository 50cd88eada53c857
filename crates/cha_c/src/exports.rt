//! What C calls.

ghost use Rattle.std.specs.Prelude.{◌≡◌, ◌<◌, ◌⊎◌, drop, length};
ghost use Rattle.cha_c.specs.Answers.{Answers, HandsOut, number_in_c};
ghost use Rattle.adjudicate.specs.CertFindings.{IsTextOf, IsUnwinnableAtFirst};
ghost use Rattle.adjudicate.specs.Report.{IsAccepted};
ghost use Rattle.item_batches.specs.Items.{most_bytes};
ghost use Rattle.cha_words.specs.declared.orders.Order.TheVariants.{CheckCert};

use crate::checking::check_text;
use crate::command_words::{WordsFault, words_of};
use crate::running::{Report, report_on};
use adjudicate::Status;
use std::alloc::Global;

/// The answer where the words order nothing.
const USAGE: u8 = 1;

/// The answer where memory was refused.
const NO_MEMORY: u8 = 5;

/// The answer where the output does not fit into its room.
const NO_ROOM: u8 = 7;

/// Runs the command that the words name over an input, as the program `cha` does over its standard input, and writes what the
/// program prints to the front of `out`. `words` is one text in UTF-8, in which a zero byte stands between two words.
/// Afterwards `used` tells how many bytes the output has.
///
/// The answer is the exit status of the program, where 5 is also said of an output for which memory was refused; or 7 where the
/// output is longer than `out`, which then holds nothing of it: whoever calls may ask again with as much room as `used` tells. It
/// keeps nothing between two calls, and starts no thread.
#[unsafe(no_mangle)]
pub extern "C" fn cha_run(
    alloc: Global,
    words: &[u8],
    input: &[u8],
    out: &mut [u8],
    used: &mut usize,
) -> u8
    ensures room { length out.new ≡ length out.old }
    ensures behind { drop used.new out.new ≡ drop used.new out.old }
    ensures no_room { result ≡ 7 → out.new ≡ out.old }
    ensures answers { Answers words.now input.now result used.new out.new }
{
    *used = 0;
    match words_of(alloc, words) {
        Ok(texts) => hand_out(&report_on(alloc, texts.as_slice(), input), out, used),
        Err(WordsFault::NoText) => USAGE,
        Err(WordsFault::NoMemory) => NO_MEMORY,
    }
}

/// Checks the certificate whose text is given, as `cha check` does (this project).
///
/// The answer is 0 where it is accepted: then the bytes are the text of a certificate, and no series of legal moves from the
/// position of its first node mates for its side (Laws of Chess, Articles 5.2.2 and 6.9). It is 6 where the bytes are no certificate
/// or one that does not hold, 4 where they are more than 268,435,456, and 5 where memory was refused.
#[unsafe(no_mangle)]
pub extern "C" fn cha_check(alloc: Global, text: &[u8]) -> u8
    ensures law { result ≡ 0 → IsTextOf IsUnwinnableAtFirst text.now }
    ensures accepted { result ≡ 0 → IsAccepted CheckCert text.now }
    ensures refused { result ≡ 6 → IsAccepted CheckCert text.now → ⊥ }
    ensures too_long { result ≡ 4 → most_bytes < length text.now }
    ensures long { most_bytes < length text.now → (result ≡ 4) ⊎ (result ≡ 5) }
    ensures no_other { (result ≡ 0) ⊎ ((result ≡ 4) ⊎ ((result ≡ 5) ⊎ (result ≡ 6))) }
{
    match check_text(alloc, text) {
        Ok(status) => number_of(status),
        Err(_) => NO_MEMORY,
    }
}

/// The number of a status: the program's exit status, and want of memory where the output could not grow.
fn number_of(status: Status) -> u8
    ensures { result ≡ number_in_c status }
{
    match status {
        Status::WriteFault => NO_MEMORY,
        other => other.number(),
    }
}

/// Copies what a run wrote to the front of the room, and answers the number of its status.
fn hand_out(report: &Report, out: &mut [u8], used: &mut usize) -> u8
    ensures room { length out.new ≡ length out.old }
    ensures behind { drop used.new out.new ≡ drop used.new out.old }
    ensures no_room { result ≡ 7 → out.new ≡ out.old }
    ensures handed { HandsOut report.now.status report.now.text.bytes result used.new out.new }
{
    let text = report.text.bytes();
    *used = text.len();
    if out.len() < text.len() {
        return NO_ROOM;
    }
    out[..text.len()].copy_from_slice(text);
    number_of(report.status)
}
