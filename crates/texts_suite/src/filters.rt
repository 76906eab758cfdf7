use crate::answer::Answer;
use ldap_filter::{Env, Filter, FilterFault, Test};
use osgi_version::{NoMemory, Text, Twin};
use std::alloc::Global;
use suite_row::Row;

pub fn reply(alloc: Global, env: &Env, row: &Row, answer: &mut Answer) -> Result<(), NoMemory> {
    let text = row.field(2);
    match row.word(1) {
        "text" => canonical(alloc, text, answer),
        "top" => top(alloc, text, answer),
        "again" => again(alloc, text, answer),
        "twin" => twin(alloc, text, answer),
        "same" => same(alloc, text, row.field(3), answer),
        "truth" => truth(alloc, env, text, answer),
        "message" => message(alloc, text, answer),
        "nested" => nested(alloc, row, answer),
        _ => answer.word("no question"),
    }
}

fn refused(fault: FilterFault, answer: &mut Answer) -> Result<(), NoMemory> {
    match fault {
        FilterFault::Bad { at } => {
            answer.word("bad")?;
            answer.number(at)
        }
        FilterFault::NoMemory => Err(NoMemory),
    }
}

fn canonical(alloc: Global, text: &Text, answer: &mut Answer) -> Result<(), NoMemory> {
    match Filter::parse(alloc, text.bytes()) {
        Ok(filter) => answer.field(filter.text(alloc)?.bytes()),
        Err(fault) => refused(fault, answer),
    }
}

/// What the outermost filter is.
fn top(alloc: Global, text: &Text, answer: &mut Answer) -> Result<(), NoMemory> {
    match Filter::parse(alloc, text.bytes()) {
        Ok(filter) => put_top(&filter, answer),
        Err(fault) => refused(fault, answer),
    }
}

fn put_top(filter: &Filter, answer: &mut Answer) -> Result<(), NoMemory> {
    match filter {
        Filter::And(filters) => {
            answer.word("and")?;
            answer.number(filters.len() as u64)
        }
        Filter::Or(filters) => {
            answer.word("or")?;
            answer.number(filters.len() as u64)
        }
        Filter::Not(_) => answer.word("not"),
        Filter::Item { attr, test } => {
            answer.field(attr.bytes())?;
            put_test(test, answer)
        }
    }
}

fn put_test(test: &Test, answer: &mut Answer) -> Result<(), NoMemory> {
    match test {
        Test::Equal(pieces) => put_pieces(pieces.items(), answer),
        Test::Near(value) => put_compared("near", value, answer),
        Test::AtLeast(value) => put_compared("at_least", value, answer),
        Test::AtMost(value) => put_compared("at_most", value, answer),
        Test::Present => answer.word("present"),
    }
}

fn put_pieces(pieces: &[Text], answer: &mut Answer) -> Result<(), NoMemory> {
    answer.word("equal")?;
    for piece in pieces {
        answer.field(piece.bytes())?;
    }
    Ok(())
}

fn put_compared(how: &str, value: &Text, answer: &mut Answer) -> Result<(), NoMemory> {
    answer.word(how)?;
    answer.field(value.bytes())
}

/// Whether the canonical text reads back.
fn again(alloc: Global, text: &Text, answer: &mut Answer) -> Result<(), NoMemory> {
    match Filter::parse(alloc, text.bytes()) {
        Ok(filter) => {
            let written = filter.text(alloc)?;
            answer.truth(is_read(alloc, &written, &filter))
        }
        Err(fault) => refused(fault, answer),
    }
}

fn is_read(alloc: Global, text: &Text, filter: &Filter) -> bool {
    match Filter::parse(alloc, text.bytes()) {
        Ok(read) => read == *filter,
        Err(_) => false,
    }
}

/// Whether the copy is equal.
fn twin(alloc: Global, text: &Text, answer: &mut Answer) -> Result<(), NoMemory> {
    match Filter::parse(alloc, text.bytes()) {
        Ok(filter) => answer.truth(is_copied(&filter)),
        Err(fault) => refused(fault, answer),
    }
}

fn is_copied(filter: &Filter) -> bool {
    match filter.copy() {
        Ok(copied) => copied == *filter,
        Err(NoMemory) => false,
    }
}

fn same(alloc: Global, text: &Text, other: &Text, answer: &mut Answer) -> Result<(), NoMemory> {
    match Filter::parse(alloc, text.bytes()) {
        Ok(filter) => answer.truth(is_read(alloc, other, &filter)),
        Err(fault) => refused(fault, answer),
    }
}

/// Whether the filter is true in the environment.
fn truth(alloc: Global, env: &Env, text: &Text, answer: &mut Answer) -> Result<(), NoMemory> {
    match Filter::parse(alloc, text.bytes()) {
        Ok(filter) => answer.truth(filter.truth(env)),
        Err(fault) => refused(fault, answer),
    }
}

/// What is said of a refused text.
fn message(alloc: Global, text: &Text, answer: &mut Answer) -> Result<(), NoMemory> {
    match Filter::parse(alloc, text.bytes()) {
        Ok(_) => answer.word("none"),
        Err(fault) => answer.message(&fault),
    }
}

/// Whether a text is read of as many times `(` and the sign, then `(a=b)`, and then as many times `)`.
fn nested(alloc: Global, row: &Row, answer: &mut Answer) -> Result<(), NoMemory> {
    let levels = row.word(3).parse::<u16>().unwrap_or(0);
    let text = nested_text(alloc, row.word(2), levels)?;
    match Filter::parse(alloc, text.bytes()) {
        Ok(filter) => answer.truth(is_copied(&filter)),
        Err(fault) => refused(fault, answer),
    }
}

fn nested_text(alloc: Global, sign: &str, levels: u16) -> Result<Text, NoMemory> {
    let mut text = String::new(alloc);
    for _ in 0..levels {
        text.push('(')?;
        text.push_str(sign)?;
    }
    text.push_str("(a=b)")?;
    for _ in 0..levels {
        text.push(')')?;
    }
    Text::from_str(alloc, text.as_str())
}
