// Standard input, read in blocks and taken line by line.
ghost use Rattle.std.specs.Prelude.{◌≡◌, ◌+◌, ◌≤◌, length, IfSome, IfOk};
ghost use Rattle.jobs.specs.Sizes.{block_size, longest_line};
ghost use Rattle.jobs.specs.Spans.{Within};

use crate::failure;
use crate::sizes::LONGEST_LINE;
use std::io::{Read, Stderr, Stdin};

// What is read, and whom it is told where it cannot be.
#[derive(Clone, Copy)]
pub(crate) struct Input {
    pub(crate) stdin: Stdin,
    pub(crate) stderr: Stderr,
}

// A read failed, and standard error has been told.
#[derive(Clone, Copy)]
pub(crate) struct Unread;

// The block has `end` bytes of the input. The line is from..to, and what comes after it starts at `next`.
#[derive(Clone, Copy)]
pub(crate) struct Span {
    pub(crate) from: usize,
    pub(crate) to: usize,
    pub(crate) next: usize,
    pub(crate) end: usize,
}

// The first LF at or after `from`, or `end`.
fn line_end(block: &[u8], from: usize, end: usize) -> usize
    requires { (from ≤ end) × (end ≤ length block.now) }
    ensures { (from ≤ result) × (result ≤ end) }
{
    block[from..end]
        .iter()
        .position(|byte| *byte == b'\n')
        .map_or(end, |i| from + i)
}

// How many bytes one read brought: none at the end of the input.
fn read_some(input: Input, room: &mut [u8]) -> Result<usize, Unread>
    ensures { IfOk result (λ n. n ≤ length room.old) }
{
    let mut stdin = input.stdin;
    stdin.read(room).map_err(|e| {
        failure::unread(input.stderr, e);
        Unread
    })
}

// The next line of a block whose bytes from..end were not yet taken, or none where the input is over.
pub(crate) fn line(
    input: Input,
    block: &mut [u8],
    from: usize,
    end: usize,
) -> Result<Option<Span>, Unread>
    requires { (from ≤ end) × (end ≤ block_size) × (length block.old ≡ block_size) }
    ensures { IfOk result (λ line. IfSome line Within) }
{
    let to = line_end(block, from, end);
    if to < end {
        return Ok(Some(Span {
            from,
            to,
            next: to + 1,
            end,
        }));
    }
    if LONGEST_LINE < end - from {
        return rest_of_long(input, block);
    }
    block.copy_within(from..end, 0);
    longer(input, block, end - from)
}

// The line whose first bytes are all that the block has; more is read until it ends or is too long.
fn longer(input: Input, block: &mut [u8], kept: usize) -> Result<Option<Span>, Unread>
    requires { (kept ≤ longest_line) × (length block.old ≡ block_size) }
    ensures { IfOk result (λ line. IfSome line Within) }
{
    let mut end = kept;
    // as long as the line can still be short enough, whatever one read brings
    while end <= LONGEST_LINE {
        let count = read_some(input, &mut block[end..])?;
        if count == 0 {
            return Ok(last(end));
        }
        let to = line_end(block, end, end + count);
        end += count;
        if to < end {
            return Ok(Some(Span {
                from: 0,
                to,
                next: to + 1,
                end,
            }));
        }
    }
    rest_of_long(input, block)
}

// The last line, with no LF, or none.
fn last(end: usize) -> Option<Span>
    requires { end ≤ longest_line }
    ensures { IfSome result Within }
{
    (end != 0).then_some(Span {
        from: 0,
        to: end,
        next: end,
        end,
    })
}

// The rest of a line that is too long is passed over.
fn rest_of_long(input: Input, block: &mut [u8]) -> Result<Option<Span>, Unread>
    requires { length block.old ≡ block_size }
    ensures { IfOk result (λ line. IfSome line Within) }
{
    // so that the loop is seen to end: no input has as many blocks
    for _ in 0..u64::MAX {
        let end = read_some(input, block)?;
        if end == 0 {
            break;
        }
        let to = line_end(block, 0, end);
        if to < end {
            return Ok(Some(passed(to + 1, end)));
        }
    }
    Ok(Some(passed(0, 0)))
}

// A line that is passed over, being too long: as many bytes of the block as no line has stand for it.
fn passed(next: usize, end: usize) -> Span
    requires { (next ≤ end) × (end ≤ block_size) }
    ensures { Within result }
{
    Span {
        from: 0,
        to: LONGEST_LINE + 1,
        next,
        end,
    }
}
