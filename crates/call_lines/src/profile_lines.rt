//! The line of a refused profile, put in pieces.
ghost use Rattle.std.specs.Prelude.{◌≡◌, ◌++◌, codes};
ghost use Rattle.std.specs.Fmt.{decimal};
ghost use Rattle.mc_host.specs.Streams.{Puts};
ghost use Rattle.call_lines.specs.RefusedProfile.{block_text, problem_of, refused_profile_text};

use crate::ending::ProfileProblem;
use itoa::Buffer;
use mc_host::{Failed, Sink, put_all};
use profile::ProfileError;

/// The problem that an error of reading tells; want of memory is none.
pub fn problem_of(error: ProfileError) -> Option<ProfileProblem>
    ensures { result ≡ problem_of error }
{
    match error {
        ProfileError::Form(line) => Some(ProfileProblem::Form(line)),
        ProfileError::Shape(line) => Some(ProfileProblem::Shape(line)),
        ProfileError::Unbalanced(function, block, entering, leaving) => Some(
            ProfileProblem::Unbalanced(function, block, entering, leaving),
        ),
        ProfileError::Unreached(function, block) => {
            Some(ProfileProblem::Unreached(function, block))
        }
        ProfileError::Total => Some(ProfileProblem::Total),
        ProfileError::NoMemory => None,
    }
}

/// Puts a place by its line, with what is wrong there.
fn put_at_line<S: Sink>(sink: &mut S, line: u32, wrong: &[u8]) -> Result<(), Failed>
    ensures { Puts (codes ":" ++ (decimal line ++ wrong.now)) result (S.state sink.old) (S.state sink.new) }
{
    let mut digits = Buffer::new();
    put_all(sink, &[b":", digits.format(line).as_bytes(), wrong])
}

/// Puts the numbers of a function and of a block.
fn put_block<S: Sink>(sink: &mut S, function: u32, block: u32) -> Result<(), Failed>
    ensures { Puts (block_text function block) result (S.state sink.old) (S.state sink.new) }
{
    let mut function_digits = Buffer::new();
    let mut block_digits = Buffer::new();
    put_all(
        sink,
        &[
            b" function ",
            function_digits.format(function).as_bytes(),
            b" block ",
            block_digits.format(block).as_bytes(),
        ],
    )
}

/// Puts what enters a block and what leaves it.
fn put_sums<S: Sink>(sink: &mut S, entering: u128, leaving: u128) -> Result<(), Failed>
    ensures { Puts (codes " in " ++ (decimal entering ++ (codes " out " ++ (decimal leaving ++ codes "\n")))) result (S.state sink.old) (S.state sink.new) }
{
    let mut entering_digits = Buffer::new();
    let mut leaving_digits = Buffer::new();
    put_all(
        sink,
        &[
            b" in ",
            entering_digits.format(entering).as_bytes(),
            b" out ",
            leaving_digits.format(leaving).as_bytes(),
            b"\n",
        ],
    )
}

/// Puts what the line of a profile out of balance says behind the file's name.
fn put_unbalanced<S: Sink>(
    sink: &mut S,
    function: u32,
    block: u32,
    entering: u128,
    leaving: u128,
) -> Result<(), Failed>
    ensures { Puts (codes ": P4 Unbalanced" ++ (block_text function block ++ (codes " in " ++ (decimal entering ++ (codes " out " ++ (decimal leaving ++ codes "\n")))))) result (S.state sink.old) (S.state sink.new) }
{
    sink.put(b": P4 Unbalanced")?;
    put_block(sink, function, block)?;
    put_sums(sink, entering, leaving)
}

/// Puts what the line of a profile with an unreached block says behind the file's name.
fn put_unreached<S: Sink>(sink: &mut S, function: u32, block: u32) -> Result<(), Failed>
    ensures { Puts (codes ": P5 Unreached" ++ (block_text function block ++ codes "\n")) result (S.state sink.old) (S.state sink.new) }
{
    sink.put(b": P5 Unreached")?;
    put_block(sink, function, block)?;
    sink.put(b"\n")
}

/// Puts what the line of a refused profile says behind the file's name.
pub fn put_refused_profile<S: Sink>(sink: &mut S, problem: ProfileProblem) -> Result<(), Failed>
    ensures { Puts (refused_profile_text problem) result (S.state sink.old) (S.state sink.new) }
{
    match problem {
        ProfileProblem::Form(line) => put_at_line(sink, line, b": P2 Form\n"),
        ProfileProblem::Shape(line) => put_at_line(sink, line, b": P3 Shape\n"),
        ProfileProblem::Unbalanced(function, block, entering, leaving) => {
            put_unbalanced(sink, function, block, entering, leaving)
        }
        ProfileProblem::Unreached(function, block) => put_unreached(sink, function, block),
        ProfileProblem::Total => sink.put(b": P6 Total\n"),
    }
}
