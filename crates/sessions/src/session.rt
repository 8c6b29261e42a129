// A session: a collection of formulas on counts, the slips that are held, and what was done.
ghost use Rattle.std.specs.Prelude.{◌≡◌, ◌<◌, List, [], ◌∷◌, ◌++◌, IfOk, vec_len};
ghost use Rattle.std.specs.Result.{IfErr};
ghost use Rattle.remora.specs.Algebras.{Sample};
ghost use Rattle.remora.specs.Calls.{scrap as scrap_call, serve};
ghost use Rattle.counts.specs.Tables.{counts as table};
ghost use Rattle.collection.specs.States.{state_of};
ghost use Rattle.sessions.specs.declared.troubles.Trouble.TheVariants.{NoMemory};

use super::answers::{Answer, Call, EntryText, Told};
use super::troubles::Trouble;
use collection::{Collection, Slip};
use counts::Counts;
use lines::{Line, ParameterType, Refusal};
use scripts::TypeWord;
use std::alloc::{AllocError, AllocFailed, Global};
use std::fmt;
use typing::Entry;

/// A collection, the slips that are held, the newest last, and how many calls were made and refused.
pub struct Session {
    collection: Collection<Counts>,
    slips: Vec<Slip>,
    calls: u64,
    refused: u64,
    formulas: u32,
}

impl Session {
    /// A session on a new collection.
    pub fn new(heap: Global) -> Session {
        Session {
            collection: Collection::new(),
            slips: Vec::new(heap),
            calls: 0,
            refused: 0,
            formulas: 0,
        }
    }

    /// The answer of a call, which is counted.
    fn counted(&mut self, call: Call, answer: Result<Answer, Refusal>) -> Told
        ensures { result ≡ record { call = call; answer = answer } }
    {
        self.calls = self.calls.saturating_add(1);
        if answer.is_err() {
            self.refused = self.refused.saturating_add(1);
        }
        Told { call, answer }
    }

    /// The place of the slip with this serial among those that are held, of the newest if none is named.
    fn place_of(&self, serial: Option<u64>) -> Result<usize, Trouble>
        ensures { IfOk result (λ i. i < vec_len self.now.slips) }
    {
        match serial {
            Some(wanted) => self
                .slips
                .iter()
                .position(|slip| u64::from(slip.serial()) == wanted)
                .ok_or(Trouble::NotHeld(wanted)),
            None => self.slips.len().checked_sub(1).ok_or(Trouble::NoneHeld),
        }
    }

    /// Takes a slip out of those that are held.
    fn take(&mut self, serial: Option<u64>) -> Result<Slip, Trouble> {
        let place = self.place_of(serial)?;
        Ok(self.slips.remove(place))
    }

    /// Holds the slip of a draft, as the newest, and tells its serial; where there is no memory for it, the draft is scrapped.
    fn hold(&mut self, slip: Slip) -> Result<u32, Trouble>
        ensures held { IfOk result (λ serial. (serial ≡ slip.serial) × (self.new.slips.items ≡ self.old.slips.items ++ slip ∷ []) × (self.new.collection ≡ self.old.collection)) }
        ensures scrapped { IfErr result (λ e. (e ≡ NoMemory (record {})) × (self.new.slips.items ≡ self.old.slips.items) × ((S : List Sample) → (serve table (state_of self.old.collection) S (scrap_call slip.serial)).state ≡ state_of self.new.collection)) }
        ensures uncounted { (self.new.calls ≡ self.old.calls) × (self.new.refused ≡ self.old.refused) × (self.new.formulas ≡ self.old.formulas) }
    {
        let serial = slip.serial();
        match self.slips.push(slip) {
            Ok(()) => Ok(serial),
            Err(AllocFailed { value: slip }) => {
                let _ = self.collection.scrap(slip);
                Err(Trouble::NoMemory(AllocError))
            }
        }
    }

    /// Opens a draft with parameters of these types, and holds its slip.
    pub fn open(&mut self, heap: Global, types: &[TypeWord]) -> Result<Told, Trouble> {
        let parameters: Vec<ParameterType> = types
            .iter()
            .map(|word| ParameterType {
                base: word.base,
                shape: word.axes.as_slice(),
            })
            .collect(heap)?;
        let answer = match self.collection.open(parameters.as_slice()) {
            Ok(slip) => Ok(Answer::Slip(self.hold(slip)?)),
            Err(refusal) => Err(refusal),
        };
        Ok(self.counted(Call::Open, answer))
    }

    /// Adds a line to the draft of a held slip.
    pub fn line(&mut self, serial: Option<u64>, line: &Line) -> Result<Told, Trouble> {
        let place = self.place_of(serial)?;
        let answer = self.collection.line(&self.slips[place], line);
        Ok(self.counted(Call::Line, answer.map(Answer::Line)))
    }

    /// Enters the draft of a held slip.
    pub fn enter(&mut self, serial: Option<u64>) -> Result<Told, Trouble> {
        let slip = self.take(serial)?;
        let answer = self.collection.enter(slip);
        if answer.is_ok() {
            self.formulas = self.formulas.saturating_add(1);
        }
        Ok(self.counted(Call::Enter, answer.map(Answer::Formula)))
    }

    /// Scraps the draft of a held slip.
    pub fn scrap(&mut self, serial: Option<u64>) -> Result<Told, Trouble> {
        let slip = self.take(serial)?;
        let answer = self.collection.scrap(slip);
        Ok(self.counted(Call::Scrap, answer.map(|()| Answer::Done)))
    }

    /// Withdraws a number.
    pub fn withdraw(&mut self, number: u32) -> Told {
        let answer = self.collection.withdraw(number);
        self.counted(Call::Withdraw, answer.map(|()| Answer::Done))
    }

    /// Tells what is known of a number.
    pub fn entry(&mut self, number: u32) -> Told {
        let mut entry = Entry::NONE;
        let answer = self.collection.entry(number, &mut entry);
        self.counted(Call::Entry, answer.map(|()| Answer::Stated(entry)))
    }

    /// Scraps the slips that are still held, and ends the session.
    // A loop over `pop`, since a slip is no `Drop`, which a `for` over the vector would ask.
    pub fn end(self) {
        let Session {
            mut collection,
            mut slips,
            calls: _,
            refused: _,
            formulas: _,
        } = self;
        while let Some(slip) = slips.pop() {
            let _ = collection.scrap(slip);
        }
        slips.destroy_empty();
    }
}

/// The summary of a session: the calls made and refused, and the formulas with what is known of them.
impl fmt::Display for Session {
    fn fmt<W: fmt::Write>(&self, f: &mut fmt::Formatter<W>) -> fmt::Result {
        let calls = self.calls;
        let refused = self.refused;
        let formulas = self.formulas;
        write!(
            f,
            "summary\ncalls: {calls}, refused: {refused}\nformulas: {formulas}"
        )?;
        for number in 0..formulas {
            let mut entry = Entry::NONE;
            if self.collection.entry(number, &mut entry).is_ok() {
                write!(f, "\nformula {number}: {}", EntryText(&entry))?;
            }
        }
        Ok(())
    }
}
