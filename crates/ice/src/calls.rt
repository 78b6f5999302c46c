// The public calls: walk, filter, balance and explain. Each makes checks 1 to 7 on the bytes that it is handed, then its own, and changes no buffer
// where one fires.
ghost use Rattle.ice_step.specs.Finished.{lent};
ghost use Rattle.ice.specs.Contract.{Walks, Filters, Balances, Explains};

use balance::balance_at;
use checks_room::way_of;
use explain::grounds;
use frame::plan::open_plan;
use ice_filter::sweep;
use ice_step::Walked;
use ice_walk::travel;
use spec::{Grounds, Level, Refusal, Room};

// Walks from a pixel along a list of moves; what it promises is one record, for refusals too.
pub fn walk(
    file: &[u8],
    way: u32,
    column: usize,
    row: usize,
    moves: &[u8],
    counts: &mut [u16],
    words: &mut [u64],
    numbers: &mut [u32],
    summary: &mut [i64],
    answers: &mut [u16],
) -> Result<Walked, Refusal>
    ensures { Walks file.now way column row moves.now
        (lent counts.old words.old numbers.old summary.old)
        (lent counts.new words.new numbers.new summary.new)
        answers.old answers.new result }
{
    let have = Room {
        counts: counts.len(),
        words: words.len(),
        numbers: numbers.len(),
        summary: summary.len(),
    };
    let plan = open_plan(file)?;
    checks::walk_verdict(plan, way, column, row, moves.len(), have, answers.len())?;
    let way = way_of(way);
    Ok(travel(
        file, plan, way, column, row, moves, counts, words, numbers, summary, answers,
    ))
}

// Filters a frame by a way into an output plane; what it promises is one record, for refusals too.
pub fn filter(
    file: &[u8],
    way: u32,
    counts: &mut [u16],
    words: &mut [u64],
    numbers: &mut [u32],
    summary: &mut [i64],
    output: &mut [u16],
) -> Result<Walked, Refusal>
    ensures { Filters file.now way
        (lent counts.old words.old numbers.old summary.old)
        (lent counts.new words.new numbers.new summary.new)
        output.old output.new result }
{
    let have = Room {
        counts: counts.len(),
        words: words.len(),
        numbers: numbers.len(),
        summary: summary.len(),
    };
    let plan = open_plan(file)?;
    checks::filter_verdict(plan, way, have, output.len())?;
    let way = way_of(way);
    let none: [u16; 0] = [];
    Ok(sweep(
        file, &none, plan, way, counts, words, numbers, summary, output,
    ))
}

// The balance of the window at a pixel, at a level. The level is a number like the column and the row until check 9 has passed.
pub fn balance(file: &[u8], column: usize, row: usize, level: usize) -> Result<i64, Refusal>
    ensures { Balances file.now column row level result }
{
    let plan = open_plan(file)?;
    checks::balance_verdict(plan, column, row, level)?;
    Ok(balance_at(file, plan, column, row, Level(level as u16)))
}

// Why the window at a pixel has its level, or no reading.
pub fn explain(file: &[u8], column: usize, row: usize) -> Result<Grounds, Refusal>
    ensures { Explains file.now column row result }
{
    let plan = open_plan(file)?;
    checks::explain_verdict(plan, column, row)?;
    Ok(grounds(file, plan, column, row))
}
