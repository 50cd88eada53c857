//! A new table, its passes split off and taken back, and its end.

ghost use Rattle.std.specs.Prelude.{◌≡◌, ◌<◌, ◌≤◌, ◌+◌, ◌-◌, ◌↔◌, [], slice_get, length, Some, IfOk, IfErr, IsErr};
ghost use Rattle.turn_cell.specs.Histories.{IsLegalHistory};
ghost use Rattle.turn_cell.specs.Passes.{IsOf, IsFirst, start, known, seen, mine, splits, joins, SplitOff, Joined};
ghost use Rattle.shard_table.specs.Shards.{ShardStep, empty};
ghost use Rattle.shard_table.specs.Wholes.{whole_at, TakesTo, WholesStay};
ghost use Rattle.shard_table.specs.Tables.{IsOfTable, IsFirstPass, IsNewPass, KnowsWell, SplitsAll, JoinsAll, TakesAll, AreReplays, OthersStay, pass_at, splits_of, joins_of};

use crate::shard::Shard;
use crate::table::{StillOut, Table, TablePass};
use cha_list::NoMemory;
use std::alloc::Global;
use turn_cell::{Pass, TurnCell};

// One of the eight.
fn one_cell(alloc: Global, entries: u32) -> Result<(TurnCell<Shard>, Pass<Shard>), NoMemory>
    requires some { 1 ≤ entries }
    requires few { entries ≤ 65536 }
    ensures start { IfOk result (λ t. start t.0 ≡ empty entries) }
    ensures first { IfOk result (λ t. IsOf t.0 t.1 × IsFirst t.1) }
    ensures empty { IfOk result (λ t. (seen t.1 ≡ []) × (mine t.1 ≡ [])) }
    ensures counts { IfOk result (λ t. (splits t.1 ≡ 0) × (joins t.1 ≡ 0)) }
{
    let shard = Shard::new(alloc, entries)?;
    match TurnCell::new(alloc, shard) {
        Ok(both) => Ok(both),
        Err((_, refused)) => Err(refused),
    }
}

// A new pass of one shard.
fn split_at(table: &Table, pass: &mut TablePass, shard: usize) -> Pass<Shard>
    requires shard { shard < 8 }
    requires of { IsOfTable table.now pass.old }
    requires first { (pass_at pass.old shard).number ≡ 0 }
    requires few { (pass_at pass.old shard).splits < 1000 }
    ensures of { IsOfTable table.now pass.new }
    ensures new { (cell : _) → slice_get table.now.cells shard ≡ Some cell → IsOf cell result }
    ensures split { SplitOff (pass_at pass.old shard) (pass_at pass.new shard) (known result) }
    ensures others { OthersStay shard pass.old pass.new }
{
    table.cells[shard].split(&mut pass.passes[shard])
}

// Takes a pass of one shard back.
fn join_at(table: &Table, pass: &mut TablePass, other: Pass<Shard>, shard: usize)
    requires shard { shard < 8 }
    requires of { IsOfTable table.now pass.old }
    requires other { (cell : _) → slice_get table.now.cells shard ≡ Some cell → IsOf cell other }
    requires first { (pass_at pass.old shard).number ≡ 0 }
    ensures of { IsOfTable table.now pass.new }
    ensures joined { Joined (pass_at pass.old shard) (known other) (pass_at pass.new shard) }
    ensures others { OthersStay shard pass.old pass.new }
    ensures taken { TakesTo (whole_at pass.old shard) (whole_at pass.new shard) (known other) }
    ensures taken_others { WholesStay shard pass.old pass.new }
{
    table.cells[shard].join(&mut pass.passes[shard], other)
}

// The shard of a cell that has one pass.
fn close_one(cell: TurnCell<Shard>, pass: Pass<Shard>) -> Shard
    requires { IsOf cell pass × IsFirst pass × (joins pass ≡ splits pass) }
    ensures { IsLegalHistory ShardStep (start cell) (seen pass) result }
{
    match cell.close(pass) {
        Ok(shard) => shard,
        Err(_) => unreachable!(),
    }
}

// A new pass of each shard.
#[tactic(auto, unfolding(crate::specs::Tables::IsFirstPass))]
fn split_each(table: &Table, pass: &mut TablePass) -> TablePass
    requires of { IsOfTable table.now pass.old }
    requires first { IsFirstPass pass.old }
    requires few { splits_of pass.old < 1000 }
    ensures of { IsOfTable table.now pass.new }
    ensures new { IsOfTable table.now result }
    ensures split { SplitsAll pass.old pass.new result }
{
    let p0 = split_at(table, pass, 0);
    let p1 = split_at(table, pass, 1);
    let p2 = split_at(table, pass, 2);
    let p3 = split_at(table, pass, 3);
    let p4 = split_at(table, pass, 4);
    let p5 = split_at(table, pass, 5);
    let p6 = split_at(table, pass, 6);
    let p7 = split_at(table, pass, 7);
    TablePass {
        passes: [p0, p1, p2, p3, p4, p5, p6, p7],
    }
}

// Takes a pass of each shard back.
#[tactic(auto, unfolding(crate::specs::Tables::IsFirstPass))]
fn join_each(table: &Table, pass: &mut TablePass, other: TablePass)
    requires of { IsOfTable table.now pass.old }
    requires other { IsOfTable table.now other }
    requires first { IsFirstPass pass.old }
    ensures of { IsOfTable table.now pass.new }
    ensures joined { JoinsAll pass.old other pass.new }
    ensures taken { TakesAll pass.old other pass.new }
{
    let others = other.into_passes();
    join_at(table, pass, others.first, 0);
    join_at(table, pass, others.second, 1);
    join_at(table, pass, others.third, 2);
    join_at(table, pass, others.fourth, 3);
    join_at(table, pass, others.fifth, 4);
    join_at(table, pass, others.sixth, 5);
    join_at(table, pass, others.seventh, 6);
    join_at(table, pass, others.eighth, 7);
}

// The shards of a table that has one pass.
fn close_each(table: Table, pass: TablePass) -> [Shard; 8]
    requires of { IsOfTable table pass }
    requires first { IsFirstPass pass }
    requires alone { joins_of pass ≡ splits_of pass }
    ensures shards { AreReplays table.entries pass result }
    ensures eight { length result ≡ 8 }
{
    let cells = table.into_cells();
    let passes = pass.into_passes();
    [
        close_one(cells.first, passes.first),
        close_one(cells.second, passes.second),
        close_one(cells.third, passes.third),
        close_one(cells.fourth, passes.fourth),
        close_one(cells.fifth, passes.fifth),
        close_one(cells.sixth, passes.sixth),
        close_one(cells.seventh, passes.seventh),
        close_one(cells.eighth, passes.eighth),
    ]
}

impl Table {
    /// Eight empty shards, each with room for 1 to 65,536 rows, and the table's first pass.
    pub fn new(alloc: Global, entries: u32) -> Result<(Table, TablePass), NoMemory>
        requires some { 1 ≤ entries }
        requires few { entries ≤ 65536 }
        ensures entries { IfOk result (λ t. t.0.entries ≡ entries) }
        ensures of { IfOk result (λ t. IsOfTable t.0 t.1) }
        ensures first { IfOk result (λ t. IsFirstPass t.1) }
        ensures counts { IfOk result (λ t. (splits_of t.1 ≡ 0) × (joins_of t.1 ≡ 0)) }
        ensures empty { IfOk result (λ t. IsNewPass t.1) }
        ensures knows { IfOk result (λ t. KnowsWell t.0 t.1) }
    {
        let (c0, p0) = one_cell(alloc, entries)?;
        let (c1, p1) = one_cell(alloc, entries)?;
        let (c2, p2) = one_cell(alloc, entries)?;
        let (c3, p3) = one_cell(alloc, entries)?;
        let (c4, p4) = one_cell(alloc, entries)?;
        let (c5, p5) = one_cell(alloc, entries)?;
        let (c6, p6) = one_cell(alloc, entries)?;
        let (c7, p7) = one_cell(alloc, entries)?;
        let table = Table {
            cells: [c0, c1, c2, c3, c4, c5, c6, c7],
            entries,
        };
        let pass = TablePass {
            passes: [p0, p1, p2, p3, p4, p5, p6, p7],
        };
        Ok((table, pass))
    }

    /// A new pass of each shard, with the next number, that knows what the first pass knows and has made no call. Only the
    /// table's first pass can be split, and at most a thousand times. It takes no memory and does not wait.
    pub fn split(&self, pass: &mut TablePass) -> TablePass
        requires of { IsOfTable self.now pass.old }
        requires first { IsFirstPass pass.old }
        requires few { splits_of pass.old < 1000 }
        ensures of { IsOfTable self.now pass.new × IsOfTable self.now result }
        ensures first { IsFirstPass pass.new }
        ensures split { SplitsAll pass.old pass.new result }
        ensures knows { KnowsWell self.now pass.new × KnowsWell self.now result }
    {
        split_each(self, pass)
    }

    /// Takes a pass back into the first one, which then knows at each shard what either knew. It takes no memory and does not
    /// wait.
    pub fn join(&self, pass: &mut TablePass, other: TablePass)
        requires of { IsOfTable self.now pass.old × IsOfTable self.now other }
        requires first { IsFirstPass pass.old }
        ensures of { IsOfTable self.now pass.new }
        ensures first { IsFirstPass pass.new }
        ensures joined { JoinsAll pass.old other pass.new }
        ensures taken { TakesAll pass.old other pass.new }
        ensures knows { KnowsWell self.now pass.new }
    {
        join_each(self, pass, other);
    }

    /// The eight shards, after all calls that the first pass knows. While other passes are out all comes back as it was, with
    /// the number of passes.
    pub fn close(self, pass: TablePass) -> Result<[Shard; 8], StillOut>
        requires of { IsOfTable self pass }
        requires first { IsFirstPass pass }
        ensures shards { IfOk result (λ shards. AreReplays self.entries pass shards × (length shards ≡ 8)) }
        ensures still { IfErr result (λ still. (still.table ≡ self) × (still.pass ≡ pass) × (still.passes ≡ splits_of pass - joins_of pass + 1)) }
        ensures exactly { IsErr result ↔ (joins_of pass < splits_of pass) }
    {
        let out = pass.passes[0].others();
        if out > 0 {
            return Err(StillOut {
                table: self,
                pass,
                passes: out + 1,
            });
        }
        Ok(close_each(self, pass))
    }
}
