use crate::answer::Answer;
use osgi_version::{List, NoMemory, Text, Twin};
use std::alloc::Global;
use suite_row::Row;

pub fn reply(alloc: Global, row: &Row, answer: &mut Answer) -> Result<(), NoMemory> {
    match row.word(1) {
        "items" => {
            let list = texts(alloc, row, 2, row.len())?;
            put_items(&list, answer)
        }
        "item" => {
            let list = texts(alloc, row, 3, row.len())?;
            item(row, &list, answer)
        }
        "twin" => {
            let list = texts(alloc, row, 2, row.len())?;
            answer.truth(is_copied(&list))
        }
        "vec" => {
            let list = texts(alloc, row, 2, row.len())?;
            put_items(&List::from_vec(list.into_vec()), answer)
        }
        "same" => same(alloc, row, answer),
        "numbers" => numbers(alloc, row, answer),
        _ => answer.word("no question"),
    }
}

/// The row's fields from one place to before another.
fn texts(alloc: Global, row: &Row, from: usize, to: usize) -> Result<List<Text>, NoMemory> {
    let mut list = List::new(alloc);
    for place in from..to.max(from) {
        list.push(row.field(place).copy()?)?;
    }
    Ok(list)
}

/// How many items there are, and which.
fn put_items(list: &List<Text>, answer: &mut Answer) -> Result<(), NoMemory> {
    if list.is_empty() {
        answer.word("empty")?;
    }
    answer.number(list.len() as u64)?;
    for text in list.items() {
        answer.field(text.bytes())?;
    }
    Ok(())
}

fn item(row: &Row, list: &List<Text>, answer: &mut Answer) -> Result<(), NoMemory> {
    let found = match row.word(2).parse::<usize>() {
        Ok(place) => list.get(place),
        Err(_) => None,
    };
    match found {
        Some(text) => answer.field(text.bytes()),
        None => answer.word("none"),
    }
}

fn is_copied(list: &List<Text>) -> bool {
    match list.copy() {
        Ok(copied) => copied == *list,
        Err(NoMemory) => false,
    }
}

/// Whether the fields before the first `;` are those behind it.
fn same(alloc: Global, row: &Row, answer: &mut Answer) -> Result<(), NoMemory> {
    let Some(middle) = (2..row.len()).find(|place| row.word(*place) == ";") else {
        return answer.word("none");
    };
    let first = texts(alloc, row, 2, middle)?;
    let second = texts(alloc, row, middle + 1, row.len())?;
    answer.truth(first == second)
}

/// The row's numbers, through a list of them and its copy.
fn numbers(alloc: Global, row: &Row, answer: &mut Answer) -> Result<(), NoMemory> {
    let mut list = List::new(alloc);
    for place in 2..row.len() {
        if let Some(number) = row.number(place) {
            list.push(number)?;
        }
    }
    let copied = list.copy()?;
    for number in copied.items() {
        answer.number(*number)?;
    }
    answer.truth(copied == list)
}
