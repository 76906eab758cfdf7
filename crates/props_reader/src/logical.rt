ghost use Rattle.std.specs.List.{take_while};
ghost use Rattle.std.specs.Prelude.{◌≤◌, ◌≡◌, ◌++◌, ◌<◌, ◌^◌, length, map, false, IfOk, OnOk};
ghost use Rattle.props_reader.specs.LogicalLines.{is_blank, without_blanks, is_skipped, backslashes_at_end, is_continued, kept, placed, logical_lines};

use osgi_version::NoMemory;
use std::alloc::Global;
use std::mem;

/// A byte of a logical line, and the natural line that it stands in.
#[derive(Clone, Copy, Debug)]
pub(crate) struct Placed {
    pub(crate) byte: u8,
    pub(crate) line: u64,
}

/// Space, tab or form feed.
pub(crate) const fn is_blank(byte: u8) -> bool
    ensures { result ≡ is_blank byte }
{
    matches!(byte, b' ' | b'\t' | 0x0C)
}

fn leading_blanks(line: &[u8]) -> usize
    ensures value { result ≡ length (take_while is_blank line.now) }
    ensures within { result ≤ length line.now }
{
    line.iter().take_while(|byte| is_blank(**byte)).count()
}

fn without_blanks(line: &[u8]) -> &[u8]
    ensures { result.now ≡ without_blanks line.now }
{
    &line[leading_blanks(line)..]
}

/// Blanks alone, or a comment.
fn is_skipped(line: &[u8]) -> bool
    ensures { result ≡ is_skipped line.now }
{
    match without_blanks(line) {
        [] => true,
        [first, ..] => *first == b'#' || *first == b'!',
    }
}

fn backslashes_at_end(line: &[u8]) -> usize
    ensures value { result ≡ length (backslashes_at_end line.now) }
    ensures within { result ≤ length line.now }
{
    line.iter().rev().take_while(|byte| **byte == b'\\').count()
}

/// Whether the line ends with an odd number of backslashes.
fn is_continued(line: &[u8]) -> bool
    ensures { result ≡ is_continued line.now }
{
    backslashes_at_end(line) % 2 == 1
}

/// What a natural line gives to its logical line: not the backslash that joins, and no leading blanks.
#[tactic(auto, unfolding(crate::specs::LogicalLines::kept))]
fn kept(line: &[u8]) -> &[u8]
    ensures { result.now ≡ kept line.now }
{
    if is_continued(line) {
        without_blanks(&line[..line.len() - 1])
    } else {
        without_blanks(line)
    }
}

/// Adds what the natural line with this number gives to its logical line.
fn join(joined: &mut Vec<Placed>, number: u64, line: &[u8]) -> Result<(), NoMemory>
    ensures { OnOk result (joined.new.items ≡ joined.old.items ++ placed number line.now) }
{
    let kept = kept(line);
    for byte in kept {
        joined.push(Placed {
            byte: *byte,
            line: number,
        })?;
    }
    Ok(())
}

/// The logical lines of natural lines.
pub(crate) fn logical_lines(alloc: Global, lines: &[&[u8]]) -> Result<Vec<Vec<Placed>>, NoMemory>
    ensures { IfOk result
        (λ found. map (λ line. line.items) found.items ≡ logical_lines false 1 (map (λ line. line.now) lines.now)) }
{
    let mut found = Vec::new(alloc);
    let mut joined = Vec::new(alloc);
    let mut goes_on = false;
    for (index, line) in lines.iter().enumerate() {
        if !goes_on && is_skipped(line) {
            continue;
        }
        join(&mut joined, index as u64 + 1, line)?;
        goes_on = is_continued(line);
        if !goes_on {
            found.push(mem::replace(&mut joined, Vec::new(alloc)))?;
        }
    }
    if goes_on {
        found.push(joined)?;
    }
    Ok(found)
}
