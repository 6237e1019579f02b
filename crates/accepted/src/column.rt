// A node whose rows are asked one after another: what is read of it once, and the run that is kept beside the row.
ghost use Rattle.std.specs.Prelude.{◌≡◌, ◌+◌, ◌<◌, ◌^◌};
ghost use Rattle.image.specs.Of.{◌of◌};
ghost use Rattle.accepted.specs.Columns.{ColumnRead, Behind, remembering_by};

use crate::runs::{next_run, run_of};
use image::bytes::Numbers;
use image::record::{MOST_NODES, Node};
use image::type_code::TypeCode;

#[derive(Clone, Copy)]
pub struct Column<'a> {
    pub node: Node<'a>,
    // the element that row 0 reads
    pub offset: usize,
    // the ends of the runs, where the rows are in runs
    pub ends: Option<Numbers<'a>>,
    ghost read: { ColumnRead node.image.now node.number offset ends },
}

// A row of a column, which need not be there, and the run that is kept beside it.
#[derive(Clone, Copy)]
pub struct Cursor<'a> {
    pub column: &'a Column<'a>,
    pub row: usize,
    pub run: usize,
    ghost behind: { Behind column.now.node.image.now column.now.node.number row run },
}

// How long a run is kept: for so many rows, and the row behind them with its run.
#[derive(Clone, Copy)]
pub struct Stay<'a> {
    pub rows: usize,
    pub next: Cursor<'a>,
}

// An element of a node, and the run that holds it, if the element is there.
#[derive(Clone, Copy)]
pub struct KeptRun {
    pub element: usize,
    pub run: usize,
}

// Of each node the element behind the last that was asked for, and its run.
// Kept: an array, and no struct that says of which image: each function would then ask that it is the node's, and ensure that it
// still is.
pub type KeptRuns = [Option<KeptRun>; MOST_NODES];

// The run of an element of a node is remembered, where the node has runs, whose ends these are.
pub fn remember(ends: Option<Numbers>, node: u32, element: usize, run: usize, runs: &mut KeptRuns)
    requires { node < 256 }
    ensures { runs.new ≡ remembering_by ends.entry runs.old node element run }
{
    if ends.is_some() {
        runs[node as usize] = Some(KeptRun { element, run });
    }
}

impl<'a> Column<'a> {
    ghost use Rattle.accepted.specs.Parts.{Side};
    ghost use Rattle.accepted.specs.Runs.{Kept, Remembered};

    // What is read once of a node. It is part of what calls it, here and below, so that neither a column nor a cursor is lent in
    // memory for each range of rows.
    #[inline(always)]
    pub fn new(node: Node<'a>) -> Column<'a>
        ensures { result.node ≡ node.entry }
    {
        let in_runs = node.code() == TypeCode::RUN_END_ENCODED;
        Column {
            node: node,
            offset: node.offset(),
            ends: if in_runs { Some(node.ends()) } else { None },
        }
    }

    // The run of row i, the first of a range: the one that is remembered, where the range of the node before it ended at row i;
    // else it is found by bisection.
    #[inline(always)]
    fn first_run(self, i: usize, runs: &KeptRuns) -> usize
        requires side { (Side of self.node) i 1 }
        requires remembered { Remembered self.node.image.now runs.now }
        ensures { (Kept of self.entry.node) i result }
    {
        let j = self.offset + i;
        if self.ends.is_none() {
            return j;
        }
        if let Some(kept) = runs[self.node.number as usize] {
            if kept.element == j {
                return kept.run;
            }
        }
        run_of(self.node, j)
    }

    // Row i, the first of a range, and its run.
    #[inline(always)]
    pub fn first(&'a self, i: usize, runs: &KeptRuns) -> Cursor<'a>
        requires side { (Side of self.now.node) i 1 }
        requires remembered { Remembered self.now.node.image.now runs.now }
        ensures column { result.column ≡ self.entry }
        ensures row { result.row ≡ i }
    {
        Cursor {
            column: self,
            row: i,
            run: self.first_run(i, runs),
        }
    }
}

impl<'a> Cursor<'a> {
    ghost use Rattle.accepted.specs.Parts.{Side};
    ghost use Rattle.accepted.specs.Runs.{Stays, remembering};

    // How many of the n rows from here on are in the run, and the row behind them: of run ends only that of this run is read. It is
    // part of what calls it: as a function of its own it gives its answer through memory, for each row.
    #[inline(always)]
    pub fn stay(self, n: usize) -> Stay<'a>
        requires { (Side of self.column.now.node) self.row n × (0 < n) }
        ensures { Stays self.entry n result }
    {
        let j = self.column.offset + self.row;
        match self.column.ends {
            None => Stay {
                rows: 1,
                next: Cursor {
                    column: self.column,
                    row: self.row + 1,
                    run: j + 1,
                },
            },
            Some(ends) => {
                let end = ends.at(self.run);
                let rows = n.min(end - j);
                Stay {
                    rows: rows,
                    next: Cursor {
                        column: self.column,
                        row: self.row + rows,
                        run: next_run(j + (rows - 1), self.run, end),
                    },
                }
            }
        }
    }

    // The run is remembered, where the node has runs.
    #[inline(always)]
    pub fn remember(self, runs: &mut KeptRuns)
        requires { (self.column.now.node.number < 256) × (self.column.now.offset + self.row < 2 ^ 34) }
        ensures { runs.new ≡ (remembering runs.old) self.entry }
    {
        remember(
            self.column.ends,
            self.column.node.number,
            self.column.offset + self.row,
            self.run,
            runs,
        );
    }
}
