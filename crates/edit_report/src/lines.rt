//! Lines of a table, and the cells in their columns.

/// A line of the table: one cell for each column.
#[derive(Drop)]
pub(crate) struct Line<'a> {
    pub(crate) name: String,
    pub(crate) old: &'a str,
    pub(crate) compatible: &'a str,
    pub(crate) latest: &'a str,
    pub(crate) new: &'a str,
    pub(crate) note: &'a str,
}

/// A column of the table.
#[derive(Clone, Copy)]
pub(crate) enum Column {
    Name,
    Old,
    Compatible,
    Latest,
    New,
    Note,
}

/// A column and its width in bytes.
#[derive(Clone, Copy)]
pub(crate) struct SizedColumn {
    pub(crate) column: Column,
    pub(crate) width: usize,
}

impl Line<'_> {
    ghost use Rattle.std.specs.Prelude.{◌≡◌};
    ghost use Rattle.edit_report.specs.Widths.{cells_of, column_of};

    /// The cell of the line in a column.
    pub(crate) fn cell(&self, column: Column) -> &str
        ensures { result.now ≡ column_of column (cells_of self.now) }
    {
        match column {
            Column::Name => self.name.as_str(),
            Column::Old => self.old,
            Column::Compatible => self.compatible,
            Column::Latest => self.latest,
            Column::New => self.new,
            Column::Note => self.note,
        }
    }
}
