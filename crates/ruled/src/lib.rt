// Document 01, module 1: the checks 5 and 6, the checks of a call in their order, and tables that passed them.
#![tactic(auto)]

pub mod checks;
pub mod into;
pub mod verdict;

ghost use Rattle.std.specs.Prelude.{◌≡◌};
ghost use Rattle.ruled.specs.Beyond.{RuledTable, TreeTable};

use counts::FewRows;
use paper::Table;
use rows::Rows;

// A table that passed the checks 1 to 6.
#[derive(Clone, Copy)]
pub struct Ruled<'a> {
    pub table: Table<'a>,
    ghost sound: { RuledTable table.prod0 table.k table.rows.now },
}

// A table that passed the checks 1 to 7.
#[derive(Clone, Copy)]
pub struct Tree<'a> {
    pub table: Table<'a>,
    ghost sound: { TreeTable table.prod0 table.k table.rows.now },
}

impl<'a> Ruled<'a> {
    // Its rows.
    pub fn few_rows(self) -> FewRows<'a>
        ensures { result.rows.numbers.now ≡ self.entry.table.rows.now }
    {
        FewRows {
            rows: Rows {
                numbers: self.table.rows,
            },
        }
    }
}
