// The public calls on drafts and numbers.
ghost use Rattle.std.specs.Prelude.{◌≡◌, ◌+◌, ◌&&◌, length, nat_le, nat_lt};
ghost use Rattle.remora.specs.Calls.{open', line as line_call, enter as enter_call, scrap as scrap_call, withdraw as withdraw_call, entry as entry_call, in_use};
ghost use Rattle.lines.specs.Lines.{line_of, types_given};
ghost use Rattle.collection.specs.States.{state_of};
ghost use Rattle.collection.specs.Promises.{Serves, Begins, Lent, slipped, numbered, finished, stated};

use super::entries::entered;
use super::holdings::Collection;
use super::slips::Slip;
use algebra::Algebra;
use checker::{Draft, Tables};
use lines::{Fields, Line, ParameterType, Refusal};
use std::marker::PhantomData;
use typing::{Entry, Parameters};

impl<A: Algebra> Collection<A> {
    /// A new collection: no draft and no formula.
    pub fn new() -> Collection<A>
        ensures { Begins A.meaning (state_of result) }
    {
        Collection {
            serials: 0,
            draft: Draft::none(),
            tables: Tables::new(),
            algebra: PhantomData,
        }
    }

    /// Opens a draft with these parameters, in place of any earlier one, and answers its slip.
    pub fn open(&mut self, parameters: &[ParameterType]) -> Result<Slip, Refusal>
        ensures { Serves A.meaning (state_of self.old) (open' (types_given parameters.now)) (slipped result) (state_of self.new) }
    {
        if self.serials >= 1_000_000 {
            return Err(Refusal::TooManyDrafts);
        }
        let Some(kept) = Parameters::of::<A>(parameters) else {
            return Err(Refusal::BadParameters);
        };
        let serial = self.serials;
        self.draft.begin(serial, kept);
        self.serials = serial + 1;
        Ok(Slip { serial })
    }

    /// Whether there is space for one more line with so many codes.
    fn has_space(&self, codes: usize) -> bool
        ensures { result ≡ (nat_le (self.now.draft.height + 1) 64 && (nat_le (self.now.tables.height + self.now.draft.height + 1) 1024 && nat_le (self.now.tables.width + self.now.draft.width + codes) 4096)) }
    {
        let rows = u64::from(self.tables.height) + u64::from(self.draft.height);
        let kept = self.tables.width as usize + self.draft.width as usize;
        self.draft.height < 64 && rows < 1024 && kept <= 4096 && codes <= 4096 - kept
    }

    /// Adds a line to the draft and answers its number.
    pub fn line(&mut self, slip: &Slip, line: &Line) -> Result<u32, Refusal>
        ensures { Serves A.meaning (state_of self.old) (line_call slip.now.serial (line_of line.now)) (numbered result) (state_of self.new) }
    {
        if !self.draft.has(slip.serial) {
            return Err(Refusal::WrongSlip);
        }
        if !self.has_space(line.codes.len()) {
            return Err(Refusal::NoSpace);
        }
        let Some(fields) = Fields::of::<A>(line) else {
            return Err(Refusal::BadField);
        };
        let number = self.draft.height;
        self.draft.add(fields, line.codes);
        Ok(number)
    }

    /// Gives the draft the next number, which is answered. A refusal from question 6 on drops the draft; the slip is used up in any case.
    pub fn enter(&mut self, slip: Slip) -> Result<u32, Refusal>
        ensures { Serves A.meaning (state_of self.old) (enter_call slip.serial) (numbered result) (state_of self.new) }
    {
        let Slip { serial } = slip;
        if !self.draft.has(serial) {
            return Err(Refusal::WrongSlip);
        }
        let answer = entered::<A>(&mut self.draft, &mut self.tables);
        self.draft.drop_lines();
        answer
    }

    /// Drops the draft. The slip is used up in any case.
    pub fn scrap(&mut self, slip: Slip) -> Result<(), Refusal>
        ensures { Serves A.meaning (state_of self.old) (scrap_call slip.serial) (finished result) (state_of self.new) }
    {
        let Slip { serial: held } = slip;
        if !self.draft.has(held) {
            return Err(Refusal::WrongSlip);
        }
        self.draft.drop_lines();
        Ok(())
    }

    /// Whether a number was given.
    fn is_given(&self, number: u32) -> bool
        ensures { result ≡ nat_lt number (length (state_of self.now).formulas) }
    {
        number < self.tables.count
    }

    /// Whether a number was given and is not withdrawn.
    fn in_use(&self, number: u32) -> bool
        ensures { result ≡ in_use (state_of self.now) number }
    {
        self.is_given(number) && !self.tables.entries[number as usize].withdrawn
    }

    /// Marks a number as withdrawn; formulas that call it go on working.
    pub fn withdraw(&mut self, number: u32) -> Result<(), Refusal>
        ensures { Serves A.meaning (state_of self.old) (withdraw_call number) (finished result) (state_of self.new) }
    {
        if !self.in_use(number) {
            return Err(Refusal::NotInUse);
        }
        self.tables.mark(number);
        Ok(())
    }

    /// Writes what is known of a number to the lent record.
    // To a lent place, as the project has its questions answer; a refusal leaves what stood there.
    pub fn entry(&self, number: u32, out: &mut Entry) -> Result<(), Refusal>
        ensures told { Serves A.meaning (state_of self.now) (entry_call number) (stated result out.new) (state_of self.now) }
        ensures lent { Lent result out.old out.new }
    {
        if !self.is_given(number) {
            return Err(Refusal::NotGiven);
        }
        *out = self.tables.entries[number as usize];
        Ok(())
    }
}
