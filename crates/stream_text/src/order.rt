//! Orders: which calls were made, one after another.
ghost use Rattle.std.specs.Prelude.{◌≡◌, ℕ, ◌+◌, codes, List, [], ◌∷◌, ◌++◌, ◌==◌, length, slice_get, IfOk, IfSome, OnOk, OnErr};

use crate::order_error::OrderError;
use crate::order_line::{OrderLine, add_order_line, order_line, read_head};
use std::alloc::{AllocError, Global};
use std::marker::Model;
use text_lines::{add_labeled, add_word, first_line};

/// Calls, one after another. Contracts see it as a list; its script lanes are 1 to 8.
#[derive(Drop)]
pub struct Order {
    lines: Vec<OrderLine>,
}

impl Model for Order {
    ghost use Rattle.std.specs.Prelude.{List};
    ghost use Rattle.std.specs.List.{All};
    ghost use Rattle.stream_text.specs.declared.order_line.OrderLine.{OrderLine as Element};
    ghost use Rattle.stream_text.specs.Order.{IsLine};

    ghost Value = { List Element };

    ghost view = { λ o. o.lines.items };

    ghost invariant = { λ o. All IsLine o.lines.items };
}

impl Order {
    ghost use Rattle.stream_text.specs.Order.{HasLane};
    ghost use Rattle.stream_text.specs.declared.order_line.OrderLine.{OrderLine};
    ghost use Rattle.stream_text.specs.Order.{order_spelling};
    ghost use Rattle.stream_text.specs.OrderText.{Answers, BeginsWith, IsOrder, order_of};

    /// An order without lines.
    pub fn new(alloc: Global) -> Order
        ensures { result ≡ [] }
    {
        Order {
            lines: Vec::new(alloc),
        }
    }

    /// Puts a line behind the others. The lane of a `Script` line has to be 1 to 8. If memory runs out, the order is
    /// as before.
    pub fn push(&mut self, line: OrderLine) -> Result<(), AllocError>
        requires { HasLane line }
        ensures ok { OnOk result (self.new ≡ self.old ++ line ∷ []) }
        ensures err { OnErr result (self.new ≡ self.old) }
    {
        self.lines.push(line)?;
        Ok(())
    }

    /// How many lines it has.
    pub fn len(&self) -> usize
        ensures { result ≡ length self.now }
    {
        self.lines.len()
    }

    pub fn is_empty(&self) -> bool
        ensures { result ≡ (length self.now == 0) }
    {
        self.lines.is_empty()
    }

    /// The line at place `i`, counted from 0; None exactly where `i` is not below `len`.
    pub fn get(&self, i: usize) -> Option<OrderLine>
        ensures value { result ≡ slice_get self.now i }
        ensures lane { IfSome result HasLane }
    {
        self.lines.get(i).copied()
    }

    /// The order at the front of a text: a line `order N`, and then N lines, each `r`, `s LANE`, `p`, `k`, `g CHANNEL`
    /// or `f CHANNEL SEQ`.
    ///
    /// Numbers are decimal, without leading zeros: N and SEQ have 64 bits, CHANNEL 32, and LANE is 1 to 8. Everything
    /// after the lines is skipped, and the last line may lack its newline. The refusal is that of the first line that
    /// does not have its form or is missing.
    pub fn read(alloc: Global, bytes: &[u8]) -> Result<Order, OrderError>
        ensures exact { Answers (λ o. o) result (order_of bytes.now) }

        // With a newline behind it, the text begins with the order.
        ensures spelled { IfOk result (λ o. IsOrder o × BeginsWith (bytes.now ++ codes "\n") (order_spelling o)) }

        // An order whose text stands in front is read, whatever follows.
        ensures again { (o : List OrderLine) → IsOrder o
            → BeginsWith (bytes.now ++ codes "\n") (order_spelling o) → Answers (λ o. o) result (Ok o) }
    {
        Order::read_all(alloc, bytes)
    }

    #[tactic(auto, using(crate::proofs::OrderReading::behind_line, crate::proofs::OrderReading::behind_nothing, crate::proofs::OrderReading::no_lines), unfolding(crate::specs::OrderText::order_of))]
    fn read_all(alloc: Global, bytes: &[u8]) -> Result<Order, OrderError>
        ensures { Answers (λ o. o) result (order_of bytes.now) }
    {
        if bytes.is_empty() {
            return Err(OrderError::BadLine { line: 1 });
        }
        let head = first_line(bytes);
        let Some(count) = read_head(head.text) else {
            return Err(OrderError::BadLine { line: 1 });
        };
        let mut order = Order::new(alloc);
        let mut left = count;
        let mut number = 2;
        let mut rest = head.rest;
        'lines: while left > 0 {
            if rest.is_empty() {
                return Err(OrderError::BadLine { line: number });
            }
            let line = first_line(rest);
            let Some(call) = order_line(line.text) else {
                return Err(OrderError::BadLine { line: number });
            };
            order.push(call)?;
            left -= 1;
            number += 1;
            rest = line.rest;
        }
        Ok(order)
    }
}

ghost use Rattle.stream_text.specs.Order.{head_spelling, lines_spelling, order_spelling};
ghost use Rattle.stream_text.specs.OrderText.{order_of, order_passed};
ghost use Rattle.text_lines.specs.Lines.{lines_of};

fn add_lines(text: &mut Vec<u8>, lines: &[OrderLine]) -> Result<(), AllocError>
    ensures { IfOk result (λ _. text.new.items ≡ text.old.items ++ lines_spelling lines.now) }
{
    for line in lines {
        add_order_line(text, line)?;
        add_word(text, "\n")?;
    }
    Ok(())
}

#[tactic(auto, unfolding(crate::specs::Order::head_spelling, crate::specs::Order::order_spelling))]
fn add_order(text: &mut Vec<u8>, lines: &[OrderLine]) -> Result<(), AllocError>
    ensures { IfOk result (λ _. text.new.items ≡ text.old.items ++ order_spelling lines.now) }
{
    add_labeled(text, "order ", lines.len() as u64)?;
    add_word(text, "\n")?;
    add_lines(text, lines)
}

/// Appends an order: how many lines it has, and the lines. If memory runs out, `out` is as before.
pub fn order_text(order: &Order, out: &mut Vec<u8>) -> Result<(), AllocError>
    ensures ok { OnOk result (out.new.items ≡ out.old.items ++ order_spelling order.now) }
    ensures err { OnErr result (out.new.items ≡ out.old.items) }

    // What is appended is read again as the order, whatever follows.
    ensures again { (rest : List ℕ) → order_of (order_spelling order.now ++ rest) ≡ Ok order.now }

    // An order in front of other lines is skipped.
    ensures passed { (rest : List ℕ)
        → order_passed (lines_of (order_spelling order.now ++ rest)) ≡ Ok (length order.now + 2, lines_of rest) }
{
    let mut text = Vec::new(*out.allocator());
    add_order(&mut text, order.lines.as_slice())?;
    out.extend_from_slice(&text)
}
