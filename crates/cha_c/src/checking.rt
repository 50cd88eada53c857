//! The check of a certificate, as a run.

ghost use Rattle.std.specs.Prelude.{◌≡◌, ◌≢◌, ◌<◌, ◌⊎◌, [], ◌∷◌, length, map, codes, string_bytes, IfOk};
ghost use Rattle.adjudicate.specs.CertFindings.{IsTextOf, IsUnwinnableAtFirst};
ghost use Rattle.adjudicate.specs.Report.{IsAccepted};
ghost use Rattle.item_batches.specs.Items.{most_bytes};
ghost use Rattle.cha_words.specs.declared.orders.Order.TheVariants.{CheckCert};

use crate::grown::Grown;
use crate::slice::Slice;
use adjudicate::{Status, run_alone};
use cha_list::NoMemory;
use std::alloc::Global;

/// How the check of a certificate's text ends: `Done` where it is accepted.
pub fn check_text(alloc: Global, text: &[u8]) -> Result<Status, NoMemory>
    ensures law { IfOk result (λ status. status ≡ Status.Done → IsTextOf IsUnwinnableAtFirst text.now) }
    ensures accepted { IfOk result (λ status. status ≡ Status.Done → IsAccepted CheckCert text.now) }
    ensures refused { IfOk result (λ status. status ≡ Status.NotAccepted → IsAccepted CheckCert text.now → ⊥) }
    ensures too_long { IfOk result (λ status. status ≡ Status.TooLong → most_bytes < length text.now) }
    ensures long { IfOk result (λ status. most_bytes < length text.now → (status ≡ Status.TooLong) ⊎ ((status ≡ Status.NoMemory) ⊎ (status ≡ Status.WriteFault))) }
    ensures no_other { IfOk result (λ status. (status ≢ Status.Usage) × (status ≢ Status.ReadFault)) }
{
    let words = check_words(alloc)?;
    let mut output = Grown::new(alloc);
    let mut source = Slice::new(text);
    let mut notes = Grown::new(alloc);
    Ok(run_alone(
        alloc,
        words.as_slice(),
        &mut source,
        &mut output,
        &mut notes,
    ))
}

/// The one word that asks for a check.
fn check_words(alloc: Global) -> Result<Vec<String>, NoMemory>
    ensures { IfOk result (λ words. map string_bytes words.items ≡ codes "check" ∷ []) }
{
    let mut words = Vec::new(alloc);
    words.push(String::from_str(alloc, "check")?)?;
    Ok(words)
}
