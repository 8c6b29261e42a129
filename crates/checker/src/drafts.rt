// The draft: the open one's serial, parameters, lines and codes.
ghost use Rattle.std.specs.Prelude.{◌≡◌, ◌+◌, ◌<◌, ◌≤◌, length, take};
ghost use Rattle.remora.specs.Calls.{slip_fits};
ghost use Rattle.checker.specs.Views.{draft_of};
ghost use Rattle.checker.specs.Changes.{no_draft, begun, grown, dropped};

use super::rows::{Given, Row};
use lines::Fields;
use shapes::ArrayType;
use typing::{Parameters, Typed};

/// A draft of at most 64 lines, which is open if it has a serial.
// Lines and codes stand in tables of fixed size, with their number beside them, and are changed in place without a heap. The bounds on `height`
// and `width` stand in the contracts: a ghost field for them would have to be proved again in every definition that makes a draft out of another.
#[derive(Drop)]
pub struct Draft {
    pub serial: Option<u32>,
    pub parameters: Parameters,
    pub rows: [Row; 64],
    pub height: u32,
    pub codes: [u64; 4096],
    pub width: u32,
}

impl Draft {
    /// No draft.
    pub fn none() -> Draft
        ensures { result ≡ no_draft }
    {
        Draft {
            serial: None,
            parameters: Parameters::NONE,
            rows: [Row::BLANK; 64],
            height: 0,
            codes: [0; 4096],
            width: 0,
        }
    }

    /// Whether a draft is open and has this serial.
    pub fn has(&self, serial: u32) -> bool
        ensures { result ≡ slip_fits (draft_of self.now) serial }
    {
        Some(serial) == self.serial
    }

    /// The types of the parameters.
    pub fn parameters(&self) -> &[ArrayType]
        ensures { result.now ≡ take self.now.parameters.count self.now.parameters.all }
    {
        self.parameters.as_slice()
    }

    /// The lines.
    pub fn lines(&self) -> &[Row]
        requires { self.now.height ≤ 64 }
        ensures { result.now ≡ take self.now.height self.now.rows }
    {
        &self.rows[..self.height as usize]
    }

    /// The codes of the lines.
    pub fn own_codes(&self) -> &[u64]
        requires { self.now.width ≤ 4096 }
        ensures { result.now ≡ take self.now.width self.now.codes }
    {
        &self.codes[..self.width as usize]
    }

    /// Opens a draft with these parameters and no lines.
    pub fn begin(&mut self, serial: u32, parameters: Parameters)
        ensures { self.new ≡ begun self.old serial parameters }
    {
        self.serial = Some(serial);
        self.parameters = parameters;
        self.height = 0;
        self.width = 0;
    }

    /// Adds a line with its codes.
    pub fn add(&mut self, fields: Fields, codes: &[u64])
        requires { (self.old.height < 64) × (self.old.width + length codes.now ≤ 4096) }
        ensures { self.new ≡ grown self.old fields codes.now }
    {
        let start = self.width;
        let length = codes.len() as u32;
        self.rows[self.height as usize] = Row {
            given: Given {
                fields,
                start,
                length,
            },
            found: Typed::NONE,
            offset: 0,
        };
        self.codes[start as usize..start as usize + codes.len()].copy_from_slice(codes);
        self.height += 1;
        self.width = start + length;
    }

    /// Drops the draft, and its lines and codes with it.
    pub fn drop_lines(&mut self)
        ensures { self.new ≡ dropped self.old }
    {
        self.serial = None;
        self.height = 0;
        self.width = 0;
    }
}
