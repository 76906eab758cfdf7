ghost use Rattle.std.specs.List.{take_while};
ghost use Rattle.std.specs.Prelude.{◌≡◌, ◌<◌, ◌≤◌, length, map, not, IfOk};
ghost use Rattle.props_reader.specs.NaturalLines.{natural_lines, ends_line, end_width};

use osgi_version::NoMemory;
use std::alloc::Global;

const LF: u8 = b'\n';

const CR: u8 = b'\r';

/// How many bytes the end of a line takes that the bytes begin with.
fn end_width(bytes: &[u8]) -> usize
    ensures value { result ≡ end_width bytes.now }
    ensures some { 0 < result }
    ensures within { 0 < length bytes.now → result ≤ length bytes.now }
{
    match bytes {
        [CR, LF, ..] => 2,
        _ => 1,
    }
}

fn line_length(bytes: &[u8]) -> usize
    ensures value { result ≡ length (take_while (λ b. not (ends_line b)) bytes.now) }
    ensures within { result ≤ length bytes.now }
{
    bytes
        .iter()
        .take_while(|byte| !(**byte == LF || **byte == CR))
        .count()
}

/// The natural lines of a text, without their ends.
pub(crate) fn natural_lines(alloc: Global, text: &[u8]) -> Result<Vec<&[u8]>, NoMemory>
    ensures { IfOk result (λ lines. map (λ line. line.now) lines.items ≡ natural_lines text.now) }
{
    let mut lines = Vec::new(alloc);
    let mut rest = text;
    'lines: loop {
        let (line, end) = rest.split_at(line_length(rest));
        lines.push(line)?;
        if end.is_empty() {
            return Ok(lines);
        }
        rest = &end[end_width(end)..];
    }
}
