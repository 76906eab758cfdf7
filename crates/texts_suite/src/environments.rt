use crate::answer::Answer;
use crate::bytes::bytes_of;
use ldap_filter::{Env, EnvFault, is_env_key};
use osgi_version::{NoMemory, Text, Twin};
use std::alloc::Global;
use suite_row::Row;

/// The environment that rows change and ask, and a copy of it that a row kept.
#[derive(Drop)]
pub struct Desk {
    env: Env,
    kept: Env,
}

impl Desk {
    pub fn new(alloc: Global) -> Desk {
        Desk {
            env: Env::new(alloc),
            kept: Env::new(alloc),
        }
    }

    pub fn env(&self) -> &Env {
        &self.env
    }

    pub fn reply(&mut self, alloc: Global, row: &Row, answer: &mut Answer) -> Result<(), NoMemory> {
        match row.word(1) {
            "new" => self.begin(alloc, answer),
            "keep" => self.keep(answer),
            "kept" => answer.truth(self.env == self.kept),
            "set" => set(alloc, &mut self.env, row, answer),
            "set_message" => set_message(alloc, &mut self.env, row, answer),
            "key" => key(alloc, row.field(2), answer),
            "all" => put_all(&self.env, answer),
            "get" => get(alloc, &self.env, row.field(2), answer),
            "pair" => pair(&self.env, row, answer),
            _ => answer.word("no question"),
        }
    }

    fn begin(&mut self, alloc: Global, answer: &mut Answer) -> Result<(), NoMemory> {
        self.env = Env::new(alloc);
        answer.number(self.env.len() as u64)
    }

    fn keep(&mut self, answer: &mut Answer) -> Result<(), NoMemory> {
        self.kept = self.env.copy()?;
        answer.number(self.kept.len() as u64)
    }
}

/// Sets a value, and says how many keys there are now.
fn set(alloc: Global, env: &mut Env, row: &Row, answer: &mut Answer) -> Result<(), NoMemory> {
    let key = bytes_of(alloc, row.field(2))?;
    match env.set(key.as_slice(), row.field(3)) {
        Ok(()) => answer.word("set")?,
        Err(EnvFault::BadKey) => answer.word("bad_key")?,
        Err(EnvFault::NoMemory) => return Err(NoMemory),
    }
    answer.number(env.len() as u64)
}

/// What is said of a key that isn't set.
fn set_message(
    alloc: Global,
    env: &mut Env,
    row: &Row,
    answer: &mut Answer,
) -> Result<(), NoMemory> {
    let key = bytes_of(alloc, row.field(2))?;
    match env.set(key.as_slice(), row.field(3)) {
        Ok(()) => answer.word("none"),
        Err(fault) => answer.message(&fault),
    }
}

fn key(alloc: Global, spelled: &Text, answer: &mut Answer) -> Result<(), NoMemory> {
    let key = bytes_of(alloc, spelled)?;
    answer.truth(is_env_key(key.as_slice()))
}

/// How many keys there are, and each with its value.
fn put_all(env: &Env, answer: &mut Answer) -> Result<(), NoMemory> {
    answer.number(env.len() as u64)?;
    for place in 0..env.len() {
        put_pair(env.pair(place), answer)?;
    }
    Ok(())
}

fn put_pair(pair: Option<(&Text, &Text)>, answer: &mut Answer) -> Result<(), NoMemory> {
    match pair {
        Some((key, value)) => {
            answer.field(key.bytes())?;
            answer.field(value.bytes())
        }
        None => answer.word("none"),
    }
}

fn get(alloc: Global, env: &Env, spelled: &Text, answer: &mut Answer) -> Result<(), NoMemory> {
    let key = bytes_of(alloc, spelled)?;
    match env.get(key.as_slice()) {
        Some(value) => answer.field(value.bytes()),
        None => answer.word("none"),
    }
}

fn pair(env: &Env, row: &Row, answer: &mut Answer) -> Result<(), NoMemory> {
    match row.word(2).parse::<usize>() {
        Ok(place) => put_pair(env.pair(place), answer),
        Err(_) => answer.word("no question"),
    }
}
