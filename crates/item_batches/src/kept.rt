//! Games whose results may be corrected, one at a time.

ghost use Rattle.std.specs.Prelude.{◌≡◌, ◌≤◌, ◌<◌, ◌+◌, ◌^◌, ◌↔◌, true, false, length, take, IfOk, IfSome, IfNone};
ghost use Rattle.std.specs.declared.result.Result.TheVariants.{Ok, Err};
ghost use Rattle.std.specs.declared.option.Option.TheVariants.{None};
ghost use Rattle.std.specs.Io.KnownBytes.{IsAtEnd};
ghost use Rattle.cha_outside.specs.Faults.{Rose};
ghost use Rattle.cha_outside.specs.Gathering.{Gathers};
ghost use Rattle.pgn_games.specs.Settling.{settled_games};
ghost use Rattle.item_batches.specs.Batches.{IsCutAt};
ghost use Rattle.item_batches.specs.Items.{game_items};
ghost use Rattle.side_by_side.specs.declared.cuts.Purpose.TheVariants.{Corrected};
ghost use Rattle.side_by_side.specs.declared.cuts.ItemKind.TheVariants.{Games as GamesFor};
ghost use Rattle.item_batches.specs.Items.{TookAsNeeded, most_bytes};

use cha_list::NoMemory;
use cha_outside::{ReadEnd, Source};
use pgn_results::KeptReader;
use side_by_side::{Cut, Purpose};

/// The next game whose result may be corrected, or None where all were given.
pub fn next_kept<S: Source>(reader: &mut KeptReader, source: &mut S) -> Result<Option<Cut>, ReadEnd>
    requires { reader.old.failed ≡ false }
    ensures bytes { Gathers (S.left source.old) (S.left source.new) reader.old.taken reader.new.taken }
    ensures written { reader.new.written ≡ reader.old.written }
    ensures cut { IfOk result (λ found. IfSome found (IsCutAt (GamesFor Corrected) reader.new.taken reader.old.given)) }
    ensures given { IfOk result (λ found. IfSome found (λ cut. (reader.new.given ≡ reader.old.given + 1) × (reader.old.given < 2 ^ 62))) }
    ensures still { reader.old.ended ≡ true → reader.new.taken ≡ reader.old.taken }
    ensures still_ended { reader.old.ended ≡ true → reader.new.ended ≡ true }
    ensures before_end { reader.new.ended ≡ false → IfOk result (λ found. IfSome found (λ cut. reader.old.given < settled_games reader.new.taken)) }
    ensures stays { IfOk result (λ found. IfNone found (reader.new.given ≡ reader.old.given)) }
    ensures none { result ≡ Ok None → (reader.new.ended ≡ true) × (length (game_items Corrected reader.new.taken) ≤ reader.old.given) }
    ensures first { take reader.old.given (game_items Corrected reader.new.taken) ≡ take reader.old.given (game_items Corrected reader.old.taken) }
    ensures end { (reader.old.ended ≡ true → IsAtEnd (S.left source.old)) → reader.new.ended ≡ true → IsAtEnd (S.left source.new) }
    ensures read_fault { result ≡ Err ReadEnd.ReadFault → Rose (S.faults source.old) (S.faults source.new) }
    ensures settled { result ≡ Err ReadEnd.ReadFault → settled_games reader.new.taken ≤ reader.old.given }
    ensures at_hand { reader.old.given < settled_games reader.old.taken → source.new ≡ source.old }
    ensures no_more { TookAsNeeded settled_games reader.new.taken reader.old.given }
    ensures too_long { (result ≡ Err ReadEnd.TooLong) ↔ (most_bytes < length reader.new.taken) }
    ensures few { length reader.new.taken ≤ most_bytes + 4096 }
    ensures goes_on { IfOk result (λ _. (reader.new.failed ≡ false) × (length reader.new.taken ≤ most_bytes)) }
    ensures later { S.faults source.old ≤ S.faults source.new }
{
    match reader.next(source) {
        Ok(Some(game)) => Ok(Some(Cut::Game(Purpose::Corrected, game))),
        Ok(None) => Ok(None),
        Err(end) => Err(end),
    }
}

/// The next game whose result may be corrected that is whole in what was taken, or None.
pub fn ready_kept(reader: &mut KeptReader) -> Result<Option<Cut>, NoMemory>
    requires { (reader.old.failed ≡ false) × (length reader.old.taken ≤ most_bytes) }
    ensures same { (reader.new.taken ≡ reader.old.taken) × (reader.new.ended ≡ reader.old.ended) }
    ensures written { reader.new.written ≡ reader.old.written }
    ensures cut { IfOk result (λ found. IfSome found (IsCutAt (GamesFor Corrected) reader.old.taken reader.old.given)) }
    ensures given { IfOk result (λ found. IfSome found (λ cut. (reader.new.given ≡ reader.old.given + 1) × (reader.old.given < 2 ^ 62))) }
    ensures settled { IfOk result (λ found. IfSome found (λ cut. reader.old.given < settled_games reader.old.taken)) }
    ensures no_more { TookAsNeeded settled_games reader.new.taken reader.old.given }
    ensures none { IfOk result (λ found. IfNone found (reader.new.given ≡ reader.old.given)) }
    ensures goes_on { IfOk result (λ _. (reader.new.failed ≡ false) × (length reader.new.taken ≤ most_bytes)) }
{
    match reader.ready() {
        Ok(Some(game)) => Ok(Some(Cut::Game(Purpose::Corrected, game))),
        Ok(None) => Ok(None),
        Err(refused) => Err(refused),
    }
}
