//! The top call.
ghost use Rattle.std.specs.Prelude.{◌≡◌, ◌⊎◌, ◌↔◌, ◌≤◌, ℕ, List, IsTrue, IsNone};
ghost use Rattle.top_call.specs.Row.{row_of, texts};
ghost use Rattle.mc_host.specs.Host.{KeepsRights};
ghost use Rattle.call_lines.specs.Lines.{Answers};
ghost use Rattle.top_call.specs.World.{world};
ghost use Rattle.top_call.specs.Check.{AgreesWithOpt};
ghost use Rattle.top_call.specs.Top.{MayDo, Ends, Writes, IsRefused, IsAccepted, IsTrapped, IsAtLimit, IsDone, IsPartlyDone, HasReadFault, HasWriteFault, IsQuiet, IsSilent, HasMoved, AreRead, IsTooLarge, IsRowDenied};

use crate::check::check_file;
use crate::command::{Command, command_of};
use crate::itself::sum_up;
use crate::opt::opt_file;
use crate::print::print_file;
use crate::reporting::report_files;
use crate::run::run_file;
use call_lines::{Stop, finish};
use ir_reader::one_answer;
use mc_host::{Host, Sink, Source};
use one_optimised::one_optimised;
use std::alloc::Global;

/// Does what the words ask for, with the line on `err`, and gives the status.
fn answer<H: Host, I: Source, O: Sink, E: Sink>(
    alloc: Global,
    words: &[String],
    host: &mut H,
    input: &mut I,
    out: &mut O,
    err: &mut E,
) -> u8
    requires { MayDo (row_of (texts words.now)) (H.state host.old) }
    ensures ends { Answers (E.state err.old) (E.state err.new) result (Ends (row_of (texts words.now))
        (world (H.state host.old) (I.state input.old) (O.state out.old)) (world (H.state host.new) (I.state input.new) (O.state out.new))) }
    ensures files { (name : List ℕ) → ¬ (Writes (row_of (texts words.now)) name) → (H.state host.new).file name ≡ (H.state host.old).file name }
    ensures rights { KeepsRights (H.state host.old) (H.state host.new) }
    ensures read_count { (H.state host.old).read_faults ≤ (H.state host.new).read_faults }
    ensures write_count { (H.state host.old).write_faults ≤ (H.state host.new).write_faults }
{
    match command_of(words) {
        None => finish(err, Err(Stop::Usage)),
        Some(
            Command::Print {
                input: file,
                output,
            },
        ) => print_file(alloc, host, err, file, output),
        Some(Command::Run(asked)) => run_file(alloc, host, input, out, err, asked),
        Some(Command::Opt(names)) => opt_file(alloc, host, err, names),
        Some(Command::Check(names)) => check_file(alloc, host, err, names),
        Some(Command::Report(names)) => report_files(alloc, host, out, err, names),
        Some(Command::Itself(n)) => sum_up(alloc, out, err, n),
    }
}

/// Does what the words ask for, puts the line of its ending on `err`, and gives the status.
///
/// `words` are the words after the program's name. `print IN OUT` writes the canonical text of the file IN to the file
/// OUT; the two may be the same. `run N IN PROF` runs `main` of IN for at most N steps, from 1 to 2^62 - 1, over `input`
/// and `out`, and where it returns writes its profile to PROF, unless PROF is `-`. `opt IN PROF OUT CERT` optimises the
/// module of IN by its profile PROF, and writes the new module to OUT and then its certificate to CERT; OUT and CERT
/// differ. `check IN PROF OUT CERT` says whether OUT is the module of IN with the placements of CERT applied, and
/// CERT shows that each of them is the best one, or is correct and safe where its expression can trap. `report IN PROF`
/// puts on `out` what each expression of IN's module costs by its profile PROF, before it is optimised and after. `self N`
/// makes a module of N diamonds with its profile, from 1 to 10000, optimises it in memory, and puts on `out` what that
/// saves. The host lets the row read and write these files, and is asked for no other. Nothing is written to a file, and no
/// report is put, before each text stands whole. IN is read, and its problems are told, before PROF, PROF before OUT, and
/// OUT before CERT.
///
/// | Status | Comes | Line on `err` |
/// |---|---|---|
/// | 0 | `print`: OUT holds the text | none |
/// | 0 | `opt`: OUT holds the text of the optimised module, and CERT its certificate | none |
/// | 0 | `check`: the checker says yes | none |
/// | 0 | `report`, `self`: `out` gained the report, or the summary | none |
/// | 0 | `run`: `main` returned V, and PROF holds the profile | `mcpre: main returned V`, with neither space nor V for `void` |
/// | 1 | IN has more than 2^26 bytes | `mcpre: IN: E1 TooLong` |
/// | 1 | a byte of IN starts no token | `mcpre: IN:LINE: E2 BadByte 0xNN` |
/// | 1 | the grammar stops, or a rule is broken, at a token of IN or at its end | `mcpre: IN:LINE: CODE NAME EXCERPT` |
/// | 1 | `opt`, `check`, `report`: PROF has more than 2^26 bytes | `mcpre: PROF: P1 TooLong` |
/// | 1 | `opt`, `check`, `report`: a line of PROF is of no form, or isn't the module's | `mcpre: PROF:LINE: CODE NAME` |
/// | 1 | `opt`, `check`, `report`: a reached block is out of balance | `mcpre: PROF: P4 Unbalanced function F block B in X out Y` |
/// | 1 | `opt`, `check`, `report`: an unreached block is left | `mcpre: PROF: P5 Unreached function F block B` |
/// | 1 | `opt`, `check`, `report`: the counts sum to 2^62 or more | `mcpre: PROF: P6 Total` |
/// | 1 | `check`: OUT has more than 2^26 bytes | `mcpre: OUT: E1 TooLong` |
/// | 1 | `check`: CERT holds no certificate; PATH is the first wrong part | `mcpre: CERT: C1 Form PATH` |
/// | 1 | `print`: the text has more than 2^26 bytes | `mcpre: IN: E17 Grown` |
/// | 1 | `opt`: the new text has, or a function of the new module has more than it may, or the chosen placements insert at 2^28 edges of a function or more | `mcpre: IN: E17 Grown` |
/// | 1 | `self`: the same of its new module | `mcpre: self: E17 Grown` |
/// | 1 | `run`: there is no defined `main` without parameters | `mcpre: IN: E18 NoMain` |
/// | 2 | the words fit no row | `mcpre: usage` |
/// | 3 | the host's count of reads that failed rose, or that of `input` | `mcpre: read fault: IN`, PROF, OUT, CERT, or `standard input` |
/// | 4 | the host's count of writes that failed rose, or that of `out` | `mcpre: write fault: OUT`, PROF, CERT, or `standard output` |
/// | 5 | an allocation was refused | `mcpre: out of memory` |
/// | 6 | `check`: the checker says no | `mcpre: no: ` and the reason |
/// | 7 | the run traps within N steps | `mcpre: trap NAME` |
/// | 8 | N steps ended nothing | `mcpre: step limit N` |
///
/// Each line ends with a newline and is put in pieces, without memory; a failing `err` changes no status.
pub fn mcpre<H: Host, I: Source, O: Sink, E: Sink>(
    alloc: Global,
    words: &[String],
    host: &mut H,
    input: &mut I,
    out: &mut O,
    err: &mut E,
) -> u8
    requires { MayDo (row_of (texts words.now)) (H.state host.old) }

    // Each row ends in one of its ways, each with its cause; the status and the line on `err` are of that ending.
    ensures answers { Answers (E.state err.old) (E.state err.new) result (Ends (row_of (texts words.now)) (world (H.state host.old) (I.state input.old) (O.state out.old)) (world (H.state host.new) (I.state input.new) (O.state out.new))) }
    ensures statuses { result ≤ 8 }

    // The words alone decide whether there is a row.
    ensures usage { (result ≡ 2) ↔ IsNone (row_of (texts words.now)) }

    // A fault is told only where a count that the row may raise rose in this call.
    ensures read_fault { result ≡ 3 → HasReadFault (row_of (texts words.now)) (world (H.state host.old) (I.state input.old) (O.state out.old)) (world (H.state host.new) (I.state input.new) (O.state out.new)) }
    ensures write_fault { result ≡ 4 → HasWriteFault (row_of (texts words.now)) (world (H.state host.old) (I.state input.old) (O.state out.old)) (world (H.state host.new) (I.state input.new) (O.state out.new)) }

    // A refusal is told exactly where a file that the row reads has a problem; only a fault or want of memory hides it.
    ensures refused { IsTrue (H.state host.old).tells → result ≡ 1 → IsRefused (row_of (texts words.now)) (H.state host.old) }
    ensures not_done { IsTrue (H.state host.old).tells → IsRefused (row_of (texts words.now)) (H.state host.old) →
        (result ≡ 1) ⊎ (result ≡ 3) ⊎ (result ≡ 5) }

    // A trap, or the end of the steps, is told exactly where the run comes to it; only a fault or want of memory hides it.
    ensures trapped { IsTrue (H.state host.old).tells → IsTrue (I.state input.old).tells → result ≡ 7 → IsTrapped (row_of (texts words.now)) (world (H.state host.old) (I.state input.old) (O.state out.old)) }
    ensures trap { IsTrue (H.state host.old).tells → IsTrue (I.state input.old).tells → IsTrapped (row_of (texts words.now)) (world (H.state host.old) (I.state input.old) (O.state out.old)) →
        (result ≡ 7) ⊎ (result ≡ 3) ⊎ (result ≡ 4) ⊎ (result ≡ 5) }
    ensures limited { IsTrue (H.state host.old).tells → IsTrue (I.state input.old).tells → result ≡ 8 → IsAtLimit (row_of (texts words.now)) (world (H.state host.old) (I.state input.old) (O.state out.old)) }
    ensures limit { IsTrue (H.state host.old).tells → IsTrue (I.state input.old).tells → IsAtLimit (row_of (texts words.now)) (world (H.state host.old) (I.state input.old) (O.state out.old)) →
        (result ≡ 8) ⊎ (result ≡ 3) ⊎ (result ≡ 4) ⊎ (result ≡ 5) }

    // Where the files are accepted, the run returns and no count rose, the row is done, if there was memory.
    ensures complete { IsTrue (H.state host.old).tells → IsAccepted (row_of (texts words.now)) (world (H.state host.old) (I.state input.old) (O.state out.old)) →
        ¬ (HasReadFault (row_of (texts words.now)) (world (H.state host.old) (I.state input.old) (O.state out.old)) (world (H.state host.new) (I.state input.new) (O.state out.new))) →
        ¬ (HasWriteFault (row_of (texts words.now)) (world (H.state host.old) (I.state input.old) (O.state out.old)) (world (H.state host.new) (I.state input.new) (O.state out.new))) → (result ≡ 0) ⊎ (result ≡ 5) }

    // Where they are read at all, only a module to be written that is too large is told besides.
    ensures grown { IsTrue (H.state host.old).tells → AreRead (row_of (texts words.now)) (world (H.state host.old) (I.state input.old) (O.state out.old)) →
        ¬ (HasReadFault (row_of (texts words.now)) (world (H.state host.old) (I.state input.old) (O.state out.old)) (world (H.state host.new) (I.state input.new) (O.state out.new))) →
        ¬ (HasWriteFault (row_of (texts words.now)) (world (H.state host.old) (I.state input.old) (O.state out.old)) (world (H.state host.new) (I.state input.new) (O.state out.new))) →
        (result ≡ 0) ⊎ (result ≡ 5) ⊎ ((result ≡ 1) × IsTooLarge (row_of (texts words.now)) (world (H.state host.old) (I.state input.old) (O.state out.old))) }

    // The checker's no is told exactly where the files that it reads don't belong together; only a fault or want of memory hides it.
    ensures denied { IsTrue (H.state host.old).tells → result ≡ 6 → IsRowDenied (row_of (texts words.now)) (H.state host.old) }
    ensures deny { IsTrue (H.state host.old).tells → IsRowDenied (row_of (texts words.now)) (H.state host.old) →
        (result ≡ 6) ⊎ (result ≡ 3) ⊎ (result ≡ 5) }

    // What each status leaves.
    ensures done { IsTrue (H.state host.old).tells → result ≡ 0 → IsDone (row_of (texts words.now)) (world (H.state host.old) (I.state input.old) (O.state out.old)) (world (H.state host.new) (I.state input.new) (O.state out.new)) }
    ensures untouched { (result ≡ 1) ⊎ (result ≡ 2) ⊎ (result ≡ 3) ⊎ (result ≡ 6) ⊎ (result ≡ 7) ⊎ (result ≡ 8) → (H.state host.new).file ≡ (H.state host.old).file }
    ensures partly { IsTrue (H.state host.old).tells → (result ≡ 4) ⊎ (result ≡ 5) → IsPartlyDone (row_of (texts words.now)) (world (H.state host.old) (I.state input.old) (O.state out.old)) (world (H.state host.new) (I.state input.new) (O.state out.new)) }

    // No other file changes. What may be read and written stays, and so does whether the host tells; no count falls.
    ensures files { (name : List ℕ) → ¬ (Writes (row_of (texts words.now)) name) → (H.state host.new).file name ≡ (H.state host.old).file name }
    ensures rights { KeepsRights (H.state host.old) (H.state host.new) }
    ensures read_count { (H.state host.old).read_faults ≤ (H.state host.new).read_faults }
    ensures write_count { (H.state host.old).write_faults ≤ (H.state host.new).write_faults }

    // What is taken and put: nothing where the row is quiet, or silent, else what the run so far takes and puts, or a first part of the report.
    ensures input { IsQuiet (row_of (texts words.now)) (world (H.state host.old) (I.state input.old) (O.state out.old)) (world (H.state host.new) (I.state input.new) (O.state out.new)) result → I.state input.new ≡ I.state input.old }
    ensures out { IsSilent (row_of (texts words.now)) (world (H.state host.old) (I.state input.old) (O.state out.old)) (world (H.state host.new) (I.state input.new) (O.state out.new)) result → O.state out.new ≡ O.state out.old }
    ensures moved { IsTrue (H.state host.old).tells → HasMoved (row_of (texts words.now)) (world (H.state host.old) (I.state input.old) (O.state out.old)) (world (H.state host.new) (I.state input.new) (O.state out.new)) }
{
    one_answer();
    certificate::one_answer();
    profile::one_answer();
    one_optimised();
    answer(alloc, words, host, input, out, err)
}

/// The checker says yes to what `opt` left, where it is given the bytes that `opt` read and those that it wrote, in files of
/// whatever names.
pub fn check_agrees_with_opt()
    ensures { AgreesWithOpt }
{}
