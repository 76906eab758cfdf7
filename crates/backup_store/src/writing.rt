ghost use Rattle.std.specs.Prelude.{◌≡◌, ◌+◌, ◌++◌, ◌<◌, ◌≤◌, length, IfOk, IfErr, IfSome, OnOk};
ghost use Rattle.std.specs.Option.{option_copied};
ghost use Rattle.folder_core.specs.Node.{IsNode};
ghost use Rattle.backup_store.specs.Entry.{IsEntry, IsOldNode, IsSmall};
ghost use Rattle.backup_store.specs.EntryText.{entry_text, node_text, mode_digits};
ghost use Rattle.backup_store.specs.declared.fault.StoreFault.TheVariants as store_fault;

use crate::entry::Entry;
use crate::fault::StoreFault;
use folder_core::{Blob, Node};
use osgi_version::{List, NoMemory, push_field, push_number};
use std::alloc::Global;

/// The text of an entry. A file in it has at most 67,108,864 bytes. Only want of memory is refused.
pub fn write_entry(alloc: Global, entry: &Entry) -> Result<Blob, StoreFault>
    requires node { IfSome entry.now.before IsNode }
    requires small { IfSome entry.now.before IsSmall }
    ensures text { IfOk result (λ text. text ≡ entry_text entry.now.path entry.now.before) }
    ensures entry { IfOk result (λ text. IsEntry entry.now.path entry.now.before) }
    ensures refused { IfErr result (λ fault. fault ≡ store_fault.NoMemory) }
{
    let mut text = Vec::new(alloc);
    push_entry(&mut text, entry)?;
    match Blob::new(List::from_vec(text)) {
        Some(blob) => Ok(blob),
        None => unreachable!(),
    }
}

/// After an `Err` the text is of no use.
#[tactic(auto, unfolding(crate::specs::EntryText::entry_text))]
fn push_entry(text: &mut Vec<u8>, entry: &Entry) -> Result<(), NoMemory>
    requires node { IfSome entry.now.before IsNode }
    requires small { IfSome entry.now.before IsSmall }
    ensures text { OnOk result (text.new.items ≡ text.old.items ++ entry_text entry.now.path entry.now.before) }
    ensures entry { OnOk result (IsEntry entry.now.path entry.now.before) }
{
    let _ = entry.path.names();
    text.extend_from_slice(b"p2entry 1\npath ")?;
    push_field(text, entry.path.text()?.bytes())?;
    text.push(b'\n')?;
    push_node(text, entry.before.as_ref())
}

#[tactic(auto, unfolding(crate::specs::EntryText::node_text))]
fn push_node(text: &mut Vec<u8>, node: Option<&Node>) -> Result<(), NoMemory>
    requires node { IfSome (option_copied node) IsNode }
    requires small { IfSome (option_copied node) IsSmall }
    ensures old { OnOk result (IfSome (option_copied node.entry) IsOldNode) }
    ensures text { OnOk result (text.new.items ≡ text.old.items ++ node_text (option_copied node.entry)) }
{
    match node {
        None => text.extend_from_slice(b"none\n")?,
        Some(Node::Dir) => text.extend_from_slice(b"dir\n")?,
        Some(Node::Link { target }) => {
            text.extend_from_slice(b"link ")?;
            push_field(text, target.bytes())?;
            text.push(b'\n')?;
        }
        Some(Node::File { mode, blob }) => {
            text.extend_from_slice(b"file ")?;
            push_mode(text, *mode)?;
            text.push(b' ')?;
            push_number(text, blob.bytes().len() as u32)?;
            text.push(b'\n')?;
            text.extend_from_slice(blob.bytes())?;
        }
    }
    Ok(())
}

fn push_mode(text: &mut Vec<u8>, mode: u16) -> Result<(), NoMemory>
    requires { mode ≤ 511 }
    ensures { OnOk result (text.new.items ≡ text.old.items ++ mode_digits mode) }
{
    text.extend_from_slice(&mode_digits(mode))?;
    Ok(())
}

/// Three octal digits.
pub(crate) fn mode_digits(mode: u16) -> [u8; 3]
    requires { mode ≤ 511 }
    ensures { result ≡ mode_digits mode }
{
    [
        octal_digit(mode / 8 / 8),
        octal_digit(mode / 8 % 8),
        octal_digit(mode % 8),
    ]
}

fn octal_digit(value: u16) -> u8
    requires { value < 8 }
    ensures { result ≡ 48 + value }
{
    b'0' + value as u8
}
