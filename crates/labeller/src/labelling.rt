//! Labelling: the checks, and the rows.

ghost use Rattle.labeller.specs.Labelling.{Alike, Labelling, OneTable};
ghost use Rattle.logic.specs.Sheets.{sheet_claims, sheet_rows};

use crate::refusal::Refusal;
use crate::rows::label_rows;
use fit::fits;
use graph::Graph;
use logic::Sheet;

/// Labels the sheet over the graph: fills the first 24,576 bytes of the memory with the truth of every row at every mode and
/// at every pair of modes, and leaves what lies behind them.
///
/// A memory that is too short is refused first, and then a sheet that does not fit the graph; a refusal leaves all memory as it
/// was.
pub fn label<G: Graph>(graph: &G, sheet: &Sheet, memory: &mut [u8]) -> Result<(), Refusal>
    ensures labelled { Labelling (G.meaning graph.now) (sheet_rows sheet.now) (sheet_claims sheet.now) memory.old result memory.new }
    ensures only { OneTable (G.meaning graph.now) (sheet_rows sheet.now) result memory.new }
    ensures alike { Alike (G.meaning graph.now) (sheet_rows sheet.now) (sheet_claims sheet.now) memory.old result memory.new }
{
    label_checked(graph, sheet, memory)
}

// Labels where the memory suffices and the sheet fits.
fn label_checked<G: Graph>(graph: &G, sheet: &Sheet, memory: &mut [u8]) -> Result<(), Refusal>
    ensures labelled { Labelling (G.meaning graph.now) (sheet_rows sheet.now) (sheet_claims sheet.now) memory.old result memory.new }
{
    let Some(table) = memory.first_chunk_mut() else {
        return Err(Refusal::MemoryShort);
    };
    if !fits(graph, sheet) {
        return Err(Refusal::Unfit);
    }
    label_rows(graph, sheet.rows(), table);
    Ok(())
}
