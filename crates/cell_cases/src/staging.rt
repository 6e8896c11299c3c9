// Cells that are staged over a chunk, and runs between a view and a chunk.
ghost use Rattle.std.specs.Prelude.{◌≡◌, ◌≤◌, pos, length, IfOk};
ghost use Rattle.cells.specs.declared.dtype.Dtype.TheVariants.{U8};
ghost use Rattle.rebase_writes.specs.Staged.{AreWords};

use case_lines::{Fault, told};
use cells::{Dense, Dtype, Run};
use rebase_writes::{Staged, read_run};
use std::alloc::Global;

pub(crate) fn answer(alloc: Global, call: &str) -> Result<String, Fault> {
    match call {
        "covers" => covers(alloc),
        "over" => over(alloc),
        "write_run" => write_run(alloc),
        "read_run" => read(alloc),
        "read_staged" => read_staged(alloc),
        "ranges" => ranges(alloc),
        "in_rows" => in_rows(alloc),
        "by_marks" => by_marks(alloc),
        "words_by_marks" => words_by_marks(alloc),
        _ => Err(Fault::Line),
    }
}

// Cells 1 and 3 of a chunk of four: which of 1 and 2 are staged, and whether nothing is left where the array has the cells
// 1 and 3, and where it has 0 and 1.
fn covers(alloc: Global) -> Result<String, Fault> {
    let mut staged = Staged::new(alloc, 4)?;
    staged.write_cell(1, 5);
    staged.write_cell(3, 6);
    let one = staged.covers(1);
    let two = staged.covers(2);
    let whole = staged.is_whole(&[false, true, false, true]);
    let part = staged.is_whole(&[true, true, false, false]);
    told(alloc, &[one, two, whole, part])
}

// The same cells over a chunk of sevens.
fn over(alloc: Global) -> Result<String, Fault> {
    let mut staged = Staged::new(alloc, 4)?;
    staged.write_cell(1, 5);
    staged.write_cell(3, 6);
    laid(alloc, &staged, 4, 7)
}

// Every other cell of a view goes to the cells 5, 3 and 1 of a chunk of six.
fn write_run(alloc: Global) -> Result<String, Fault> {
    let mut staged = Staged::new(alloc, 6)?;
    let down = Run {
        view: 0,
        view_step: 2,
        chunk: 5,
        chunk_step: -2,
        len: 3,
    };
    staged.write_run(&down, &[10, 11, 12, 13, 14]);
    laid(alloc, &staged, 6, 0)
}

// The staged cells over a chunk that has one number in each cell.
fn laid(alloc: Global, staged: &Staged, cells: u64, number: u64) -> Result<String, Fault>
    requires small { cells ≤ 6 }
    requires count { length staged.now ≡ cells }
    requires number { number ≤ 7 }
    requires words { AreWords U8 staged.now }
{
    let base = Dense::filled(alloc, Dtype::U8, &[cells], number)?;
    shown(alloc, staged, &base)
}

fn shown(alloc: Global, staged: &Staged, base: &Dense) -> Result<String, Fault>
    requires count { length staged.now ≡ length base.now.words }
    requires words { AreWords base.now.dtype staged.now }
{
    let laid = staged.over(alloc, base)?;
    words(alloc, &laid)
}

// The words of all cells.
fn words(alloc: Global, cells: &Dense) -> Result<String, Fault> {
    let words = cells.to_words(alloc)?;
    told(alloc, &words.as_slice())
}

// The cells 1, 3 and 5 of a chunk go to the cells 1, 2 and 3 of a view, and those further back to none.
fn read(alloc: Global) -> Result<String, Fault> {
    let mut dense = Dense::filled(alloc, Dtype::U8, &[2, 3], 0)?;
    dense.set(1, 14);
    dense.set(3, 12);
    dense.set(5, 10);
    let up = Run {
        view: 1,
        view_step: 1,
        chunk: 1,
        chunk_step: 2,
        len: 3,
    };
    let mut out = [1, 1, 1, 1];
    read_run(&dense, &up, &mut out);
    told(alloc, &out)
}

// Of the cells 3, 2 and 1 of a chunk of four, the first and the last are staged and go to every other cell of a view. Then both go to
// the view's second cell, one after the other.
fn read_staged(alloc: Global) -> Result<String, Fault> {
    let mut staged = Staged::new(alloc, 4)?;
    staged.write_cell(1, 5);
    staged.write_cell(3, 6);
    let down = Run {
        view: 0,
        view_step: 2,
        chunk: 3,
        chunk_step: -1,
        len: 3,
    };
    let again = Run {
        view: 1,
        view_step: 0,
        chunk: 3,
        chunk_step: -2,
        len: 2,
    };
    let mut out = [1, 1, 1, 1, 1];
    staged.read_run(&down, &mut out);
    staged.read_run(&again, &mut out);
    told(alloc, &out)
}

// A run of so many cells of a chunk one after another, from a place on.
fn row(view: u32, chunk: u32, len: u32) -> Run
    ensures { result ≡ record { view = view; view_step = 1; chunk = chunk; chunk_step = pos 1; len = len } }
{
    Run {
        view,
        view_step: 1,
        chunk,
        chunk_step: 1,
        len,
    }
}

// Of a chunk of 80 cells, 8 to 11 and 12 to 15 are staged, and of those behind every third from 20 to 32.
fn rows_staged(alloc: Global) -> Result<Staged, Fault>
    ensures { IfOk result (λ staged. length staged ≡ 80) }
{
    let words = [1, 2, 3, 4, 5, 6, 7, 8, 9, 10, 11, 12, 13];
    let third = Run {
        view: 8,
        view_step: 1,
        chunk: 20,
        chunk_step: 3,
        len: 5,
    };
    let mut staged = Staged::new(alloc, 80)?;
    staged.write_run(&row(0, 8, 4), &words);
    staged.write_run(&row(4, 12, 4), &words);
    staged.write_run(&third, &words);
    Ok(staged)
}

// Which ranges of them are staged as a whole: 8 to 15, 8 to 16, 20 alone, 20 and 21; of which nothing is: 0 to 7, 16 to 19, 16 to 20, 33 to 79.
fn ranges(alloc: Global) -> Result<String, Fault> {
    let staged = rows_staged(alloc)?;
    let whole = staged.covers_range(8, 16) && staged.covers_range(20, 21);
    let more = staged.covers_range(8, 17) || staged.covers_range(20, 22);
    let none = staged.spares_range(0, 8)
        && staged.spares_range(16, 20)
        && staged.spares_range(33, 80);
    let some = staged.spares_range(16, 21) || staged.spares_range(15, 16);
    told(
        alloc,
        &[
            whole,
            more,
            none,
            some,
            staged.covers(23),
            staged.covers(24),
        ],
    )
}

// The cells 6 to 33, once as they are staged and once when 9 and 10 are staged again.
fn in_rows(alloc: Global) -> Result<String, Fault> {
    let mut staged = rows_staged(alloc)?;
    let mut out = [0; 56];
    staged.read_run(&row(0, 6, 28), &mut out);
    staged.write_run(&row(0, 9, 2), &[70, 71]);
    staged.read_run(&row(28, 6, 28), &mut out);
    told(alloc, &out)
}

// Of a chunk of 200 cells, 3 to 130 are staged, and then 64 once more.
fn cells_staged(alloc: Global) -> Result<Staged, Fault>
    ensures { IfOk result (λ staged. length staged ≡ 200) }
{
    let words = [7; 128];
    let mut staged = Staged::new(alloc, 200)?;
    staged.write_run(&row(0, 3, 128), &words);
    staged.write_cell(64, 9);
    Ok(staged)
}

// Which ranges of them are staged as a whole: 3 to 130, 64 to 127; 2 to 130, 3 to 131; of which nothing is: 0 to 2, 131 to 199; 0 to 3, 130 to 199.
fn by_marks(alloc: Global) -> Result<String, Fault> {
    let staged = cells_staged(alloc)?;
    let whole = staged.covers_range(3, 131) && staged.covers_range(64, 128);
    let more = staged.covers_range(2, 131) || staged.covers_range(3, 132);
    let none = staged.spares_range(0, 3) && staged.spares_range(131, 200);
    let some = staged.spares_range(0, 4) || staged.spares_range(130, 200);
    told(
        alloc,
        &[
            whole,
            more,
            none,
            some,
            staged.covers(130),
            staged.covers(131),
        ],
    )
}

// The cells 1 to 4, 62 to 65 and 129 to 132 of them.
fn words_by_marks(alloc: Global) -> Result<String, Fault> {
    let staged = cells_staged(alloc)?;
    let mut out = [0; 12];
    staged.read_run(&row(0, 1, 4), &mut out);
    staged.read_run(&row(4, 62, 4), &mut out);
    staged.read_run(&row(8, 129, 4), &mut out);
    told(alloc, &out)
}
