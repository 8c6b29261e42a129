// The tables of entered formulas: what is known of each, its lines and its codes.
ghost use Rattle.std.specs.Prelude.{◌≡◌, ◌+◌, ◌<◌, ◌≤◌, length, take};
ghost use Rattle.checker.specs.Changes.{no_tables, kept, withdrawn_at};

use super::rows::Row;
use typing::Entry;

/// Where the lines and the codes of a formula stand in the tables.
#[derive(Clone, Copy)]
pub struct Extent {
    pub first: u32,
    pub rows: u32,
    pub start: u32,
    pub codes: u32,
}

/// At most 64 formulas with 1,024 lines and 4,096 codes in all.
// The tables are of fixed size, with the number of what they hold beside them, and are changed in place without a heap. Entries and extents
// stand apart, since typing is lent the entries as one slice.
#[derive(Drop)]
pub struct Tables {
    pub entries: [Entry; 64],
    pub extents: [Extent; 64],
    pub count: u32,
    pub rows: [Row; 1024],
    pub height: u32,
    pub codes: [u64; 4096],
    pub width: u32,
}

impl Extent {
    /// No lines and no codes.
    const NONE: Extent = Extent {
        first: 0,
        rows: 0,
        start: 0,
        codes: 0,
    };
}

impl Tables {
    /// No formulas.
    pub fn new() -> Tables
        ensures { result ≡ no_tables }
    {
        Tables {
            entries: [Entry::NONE; 64],
            extents: [Extent::NONE; 64],
            count: 0,
            rows: [Row::BLANK; 1024],
            height: 0,
            codes: [0; 4096],
            width: 0,
        }
    }

    /// What is known of the formulas, by number.
    pub fn known(&self) -> &[Entry]
        requires { self.now.count ≤ 64 }
        ensures { result.now ≡ take self.now.count self.now.entries }
    {
        &self.entries[0..self.count as usize]
    }

    /// Keeps one more formula: what is known of it, its lines and its codes.
    pub fn keep(&mut self, entry: Entry, rows: &[Row], codes: &[u64])
        requires { (self.old.count < 64) × ((self.old.height + length rows.now ≤ 1024) × (self.old.width + length codes.now ≤ 4096)) }
        ensures { self.new ≡ kept self.old entry rows.now codes.now }
    {
        let first = self.height as usize;
        let start = self.width as usize;
        let at = self.count as usize;
        self.entries[at] = entry;
        self.extents[at] = Extent {
            first: first as u32,
            rows: rows.len() as u32,
            start: start as u32,
            codes: codes.len() as u32,
        };
        self.rows[first..first + rows.len()].copy_from_slice(rows);
        self.codes[start..start + codes.len()].copy_from_slice(codes);
        self.count += 1;
        self.height = (first + rows.len()) as u32;
        self.width = (start + codes.len()) as u32;
    }

    /// Marks a formula as withdrawn.
    pub fn mark(&mut self, number: u32)
        requires { number < 64 }
        ensures { self.new ≡ withdrawn_at self.old number }
    {
        let entry = &mut self.entries[number as usize];
        entry.withdrawn = true;
    }
}
