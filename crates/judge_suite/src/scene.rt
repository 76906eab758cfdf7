//! What the rows speak of.

use crate::asking::{push_judged, push_word};
use crate::making::{chain, read_units};
use ldap_filter::{Env, EnvFault};
use osgi_version::{List, NoMemory, Text, Twin};
use std::alloc::Global;
use suite_row::Row;
use unit_model::Unit;

/// The units of the last description, and the environment.
#[derive(Drop)]
pub(crate) struct Scene {
    pub(crate) units: List<Unit>,
    pub(crate) env: Env,
}

impl Scene {
    pub(crate) fn new(alloc: Global) -> Scene {
        Scene {
            units: List::new(alloc),
            env: Env::new(alloc),
        }
    }

    /// The line that answers a row. A comment is copied.
    pub(crate) fn answer(&mut self, alloc: Global, line: &str) -> Result<Vec<u8>, NoMemory> {
        let mut answer = Vec::new(alloc);
        if line.starts_with('#') {
            push_word(&mut answer, line)?;
        } else {
            self.push_answer(&mut answer, alloc, line)?;
        }
        answer.push(b'\n')?;
        Ok(answer)
    }

    fn push_answer(
        &mut self,
        answer: &mut Vec<u8>,
        alloc: Global,
        line: &str,
    ) -> Result<(), NoMemory> {
        match Row::read(alloc, line.as_bytes())? {
            Some(row) => self.push_row(answer, alloc, &row),
            None => push_word(answer, "no row"),
        }
    }

    fn push_row(&mut self, answer: &mut Vec<u8>, alloc: Global, row: &Row) -> Result<(), NoMemory> {
        match row.word(0) {
            "units" => self.take_units(answer, alloc, row.field(1)),
            "chain" => self.take_chain(answer, alloc, row),
            "twice" => self.repeat(answer, row),
            "on" => self.set(answer, row),
            "judge" => push_judged(answer, alloc, self, row),
            _ => push_word(answer, "no question"),
        }
    }

    /// `units TEXT`: from here on the units are those of this description, in the empty environment.
    fn take_units(
        &mut self,
        answer: &mut Vec<u8>,
        alloc: Global,
        text: &Text,
    ) -> Result<(), NoMemory> {
        self.env = Env::new(alloc);
        match read_units(alloc, text.bytes())? {
            Some(units) => {
                self.units = units;
                push_word(answer, "units")
            }
            None => push_word(answer, "refused"),
        }
    }

    /// `chain COUNT`: from here on the units are so many in a chain.
    fn take_chain(
        &mut self,
        answer: &mut Vec<u8>,
        alloc: Global,
        row: &Row,
    ) -> Result<(), NoMemory> {
        let count = row.word(1).parse::<u32>().unwrap_or(0);
        self.units = chain(alloc, count)?;
        push_word(answer, "units")
    }

    /// `twice UNIT`: that unit stands at the end once more.
    fn repeat(&mut self, answer: &mut Vec<u8>, row: &Row) -> Result<(), NoMemory> {
        let place = row.word(1).parse::<usize>().unwrap_or(usize::MAX);
        match self.units.get(place) {
            Some(unit) => {
                let unit = unit.copy()?;
                self.units.push(unit)?;
                push_word(answer, "units")
            }
            None => push_word(answer, "no unit"),
        }
    }

    /// `on KEY VALUE`: from here on the environment has this value.
    fn set(&mut self, answer: &mut Vec<u8>, row: &Row) -> Result<(), NoMemory> {
        match self.env.set(row.field(1).bytes(), row.field(2)) {
            Ok(()) => push_word(answer, "on"),
            Err(EnvFault::BadKey) => push_word(answer, "bad key"),
            Err(EnvFault::NoMemory) => Err(NoMemory),
        }
    }
}
