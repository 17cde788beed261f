//! An order in front of other lines.
ghost use Rattle.std.specs.Prelude.{◌≡◌, ◌+◌, ◌≤◌, length, IfOk, None, if◌then◌else◌};
ghost use Rattle.stream_text.specs.OrderText.{Passes, head_of, lines_passed, order_passed};
ghost use Rattle.text_lines.specs.Lines.{lines_of};

use crate::order_line::{order_line, read_head};
use text_lines::first_line;

/// Skips the lines of an order, from line 2 on. Returns the number of the next line and what stands from there on, or
/// the number of the first line that is bad or missing.
#[tactic(auto, using(crate::proofs::OrderReading::all_passed))]
fn pass_lines(count: u64, bytes: &[u8]) -> Result<(u64, &[u8]), u64>
    ensures value { Passes (λ p. (p.0, lines_of p.1.now)) result (lines_passed 2 count (lines_of bytes.now)) }
    ensures within { IfOk result (λ p. p.0 + length p.1.now ≤ 2 + length bytes.now) }
{
    let mut left = count;
    let mut number = 2;
    let mut rest = bytes;
    'lines: while left > 0 {
        if rest.is_empty() {
            return Err(number);
        }
        let line = first_line(rest);
        if !line.ended || order_line(line.text).is_none() {
            return Err(number);
        }
        left -= 1;
        number += 1;
        rest = line.rest;
    }
    Ok((number, rest))
}

/// How many lines follow the first line of an order that a newline ends.
fn ended_head(text: &[u8], ended: bool) -> Option<u64>
    ensures { result ≡ (if ended then head_of text.now else None) }
{
    if ended { read_head(text) } else { None }
}

/// Skips the order in front of a stream file, in which a newline ends each line. Returns the number of the line after
/// the order and what stands from there on, or the number of the first line of the order that is bad or missing. If no
/// order begins, that is line 1.
pub(crate) fn pass_order(bytes: &[u8]) -> Result<(u64, &[u8]), u64>
    ensures value { Passes (λ p. (p.0, lines_of p.1.now)) result (order_passed (lines_of bytes.now)) }
    ensures within { IfOk result (λ p. p.0 + length p.1.now ≤ 1 + length bytes.now) }
{
    if bytes.is_empty() {
        return Ok((1, bytes));
    }
    let line = first_line(bytes);
    match ended_head(line.text, line.ended) {
        Some(count) => pass_lines(count, line.rest),
        None => Ok((1, bytes)),
    }
}
