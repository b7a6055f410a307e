//! The line of a checker that says no, put in pieces.
ghost use Rattle.std.specs.Prelude.{◌≡◌, ◌++◌, codes};
ghost use Rattle.mc_host.specs.Streams.{Puts};
ghost use Rattle.call_lines.specs.Reasons.{byte_text, entry_text, number_text, reason_text, value_text};

use checker::Reason;
use itoa::Buffer;
use mc_host::{Failed, Sink, put_all};

/// Puts a code with its name, a function and an expression.
fn put_entry<S: Sink>(
    sink: &mut S,
    name: &[u8],
    function: u32,
    expression: u32,
) -> Result<(), Failed>
    ensures { Puts (entry_text name.now function expression) result (S.state sink.old) (S.state sink.new) }
{
    let mut function_digits = Buffer::new();
    let mut expression_digits = Buffer::new();
    put_all(
        sink,
        &[
            name,
            b" function ",
            function_digits.format(function).as_bytes(),
            b" expression ",
            expression_digits.format(expression).as_bytes(),
        ],
    )
}

/// Puts a code with its name, a function, an expression, and the number of what is named.
fn put_at<S: Sink>(
    sink: &mut S,
    name: &[u8],
    function: u32,
    expression: u32,
    what: &[u8],
    number: u32,
) -> Result<(), Failed>
    ensures { Puts (number_text name.now function expression what.now number) result (S.state sink.old) (S.state sink.new) }
{
    let mut function_digits = Buffer::new();
    let mut expression_digits = Buffer::new();
    let mut digits = Buffer::new();
    put_all(
        sink,
        &[
            name,
            b" function ",
            function_digits.format(function).as_bytes(),
            b" expression ",
            expression_digits.format(expression).as_bytes(),
            what,
            digits.format(number).as_bytes(),
        ],
    )
}

/// Puts a cost that isn't the value of the flow and the constant.
fn put_value<S: Sink>(
    sink: &mut S,
    name: &[u8],
    function: u32,
    expression: u32,
    cost: u128,
    sum: u128,
) -> Result<(), Failed>
    ensures { Puts (value_text name.now function expression cost sum) result (S.state sink.old) (S.state sink.new) }
{
    let mut function_digits = Buffer::new();
    let mut expression_digits = Buffer::new();
    let mut cost_digits = Buffer::new();
    let mut sum_digits = Buffer::new();
    put_all(
        sink,
        &[
            name,
            b" function ",
            function_digits.format(function).as_bytes(),
            b" expression ",
            expression_digits.format(expression).as_bytes(),
            b" cost ",
            cost_digits.format(cost).as_bytes(),
            b" sum ",
            sum_digits.format(sum).as_bytes(),
        ],
    )
}

/// Puts the place of the first byte that differs.
fn put_byte<S: Sink>(sink: &mut S, name: &[u8], byte: u64) -> Result<(), Failed>
    ensures { Puts (byte_text name.now byte) result (S.state sink.old) (S.state sink.new) }
{
    let mut digits = Buffer::new();
    put_all(sink, &[name, b" byte ", digits.format(byte).as_bytes()])
}

/// Puts a reason: its code and name, and its place or its numbers.
fn put_reason<S: Sink>(sink: &mut S, reason: Reason) -> Result<(), Failed>
    ensures { Puts (reason_text reason) result (S.state sink.old) (S.state sink.new) }
{
    match reason {
        Reason::Shape {
            function,
            expression,
        } => put_entry(sink, b"N1 Shape", function, expression),
        Reason::Missing {
            function,
            expression,
        } => put_entry(sink, b"N2 Missing", function, expression),
        Reason::Incorrect {
            function,
            expression,
            point,
        } => put_at(
            sink,
            b"N3 Incorrect",
            function,
            expression,
            b" point ",
            point,
        ),
        Reason::Unsafe {
            function,
            expression,
            edge,
        } => put_at(sink, b"N4 Unsafe", function, expression, b" edge ", edge),
        Reason::Capacity {
            function,
            expression,
            arc,
        } => put_at(sink, b"N5 Capacity", function, expression, b" arc ", arc),
        Reason::Balance {
            function,
            expression,
            node,
        } => put_at(sink, b"N6 Balance", function, expression, b" node ", node),
        Reason::Value {
            function,
            expression,
            cost,
            sum,
        } => put_value(sink, b"N7 Value", function, expression, cost, sum),
        Reason::Rank {
            function,
            expression,
            node,
        } => put_at(sink, b"N8 Rank", function, expression, b" node ", node),
        Reason::Places {
            function,
            expression,
        } => put_entry(sink, b"N10 Places", function, expression),
        Reason::Text { byte } => put_byte(sink, b"N9 Text", byte),
    }
}

/// Puts the line of a checker that says no.
pub fn put_no<S: Sink>(sink: &mut S, reason: Reason) -> Result<(), Failed>
    ensures { Puts (codes "mcpre: no: " ++ (reason_text reason ++ codes "\n")) result (S.state sink.old) (S.state sink.new) }
{
    sink.put(b"mcpre: no: ")?;
    put_reason(sink, reason)?;
    sink.put(b"\n")
}
