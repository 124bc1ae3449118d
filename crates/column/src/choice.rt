// Which columns of a working slice a call is about.

ghost use Rattle.std.specs.Prelude.{◌≡◌, ◌+◌, ◌<◌, ◌≤◌, get_or};
ghost use Rattle.column.specs.Choice.{column_at, Room};

// A column of the working slice, and what a public 1 adds to it.
#[derive(Clone, Copy)]
pub struct Column {
    pub index: usize,
    pub weight: u32,
}

// Columns of a working slice: the share's, and behind it those of parts from column 1 + skip on; `count` in all.
#[derive(Clone, Copy)]
pub struct ColumnChoice {
    pub count: usize,
    pub skip: usize,
}

impl ColumnChoice {
    // The column at place f.
    pub fn place(self, f: usize) -> usize
        requires { (f < self.count) × (self.count + self.skip ≤ 4294967296) }
        ensures { (result ≡ column_at self.skip f) × (result < self.count + self.skip) }
    {
        if f == 0 {
            return 0;
        }
        f + self.skip
    }
}

// A working slice, its columns' weights, and the columns of it that a call is about.
#[derive(Clone, Copy)]
pub struct ChosenColumns<'a> {
    pub work: &'a [u32],
    pub weights: &'a [u32],
    pub choice: ColumnChoice,
    ghost room: { Room choice weights.now work.now },
}

impl ChosenColumns<'_> {
    // The column at place f of the choice, with its weight.
    pub fn at(self, f: usize) -> Column
        requires { f < self.choice.count }
        ensures index { (result.index ≡ column_at self.entry.choice.skip f) × (result.index < self.entry.choice.count + self.entry.choice.skip) }
        ensures weight { result.weight ≡ get_or self.entry.weights.now (column_at self.entry.choice.skip f) 0 }
    {
        let index = self.choice.place(f);
        Column {
            index,
            weight: self.weights[index],
        }
    }
}
