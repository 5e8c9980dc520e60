//! Tables of row names: a name for each code, and the code of each name.
#![tactic(auto)]

ghost use Rattle.std.specs.Prelude.{◌≡◌, ◌≤◌, true, length, slice_get, Some, MatchOption};
ghost use Rattle.std.specs.List.{position};
ghost use Rattle.std.specs.Str.{bytes_eq};
ghost use Rattle.soqe_simp.specs.RowTables.{texts, differ, code_of, row_names as names_of_rows};

/// The names of N rows, no two alike. The code of a row is the place of its name, from 0.
#[derive(Clone, Copy)]
pub struct RowTable<const N: usize> {
    pub names: &'static [&'static str],
    pub ghost sized: { length names.now ≡ N },
    pub ghost distinct: { differ (texts names.now) ≡ true },
}

impl<const N: usize> RowTable<N> {
    /// The name with the code; none exactly where the code is N or more. It takes no memory.
    pub fn name(&self, code: usize) -> Option<&'static str>
        ensures exact { MatchOption result (N ≤ code) (λ name. slice_get (texts self.now.names.now) code ≡ Some name.now) }
    {
        if code < N {
            Some(self.names[code])
        } else {
            None
        }
    }

    /// The code of the name; none exactly where the table does not have it. It takes no memory, and looks at the names from
    /// the first on.
    pub fn code(&self, name: &str) -> Option<usize>
        ensures exact { result ≡ code_of name.now (texts self.now.names.now) }
    {
        first_place(self.names, name)
    }
}

fn first_place(names: &[&'static str], name: &str) -> Option<usize>
    ensures { result ≡ position (λ n. bytes_eq n.now name.now) names.now }
{
    names.iter().position(|it| *it == name)
}

static ROW_NAMES: [&str; 37] = [
    "row1", "row2", "row3", "row4", "row5", "row6", "row7", "row8", "row9", "row10", "row11",
    "row12", "row13", "row14", "row15", "row16", "row17", "row18", "row19", "row20", "row21",
    "row22", "row23", "row24", "row25", "row26", "row27", "row28", "row29", "row30", "row31",
    "row32", "row33", "row34", "row35", "row36", "row37",
];

/// The names of the simplifier's rows, `row1` to `row37`. A step's row, which is counted from 1, has the code one less.
pub fn row_names() -> RowTable<37>
    ensures exact { texts result.names.now ≡ names_of_rows }
{
    RowTable { names: &ROW_NAMES }
}
