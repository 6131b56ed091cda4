ghost use Rattle.std.specs.Prelude.{◌≡◌, ◌↔◌, ◌<◌, ◌+◌, ◌++◌, [], ◌∷◌, length, IfOk, OnOk};
ghost use Rattle.std.specs.List.{flat_map};
ghost use Rattle.room_jobs.specs.Differences.{differences, lines_of, marked, unlike};

use crate::places::place;
use card::until;
use std::alloc::{AllocError, Global};
use std::cmp::Ordering;

// The lines in which two texts differ, in the order of their places. There is none just where the texts are the same.
pub fn differences(heap: Global, first: &[u8], second: &[u8]) -> Result<Vec<u8>, AllocError>
    ensures text { IfOk result (λ v. v.items ≡ differences first.now second.now) }
    ensures same { IfOk result (λ v. v.items ≡ [] ↔ first.now ≡ second.now) }
{
    let mut out = Vec::new(heap);
    let mut ours = first;
    let mut theirs = second;
    while !ours.is_empty() && !theirs.is_empty() {
        (ours, theirs) = compare_lines(&mut out, ours, theirs)?;
    }
    add_all_marked(&mut out, b'<', ours)?;
    add_all_marked(&mut out, b'>', theirs)?;
    Ok(out)
}

// Adds how the first lines of two texts differ, and gives what is left of both: of two lines the one with the smaller
// place is passed, and two of one place are compared and passed.
#[tactic(auto, using(crate::proofs::Differing::passed_first, crate::proofs::Differing::passed_second, crate::proofs::Differing::passed_both))]
fn compare_lines<'t>(
    out: &mut Vec<u8>,
    first: &'t [u8],
    second: &'t [u8],
) -> Result<(&'t [u8], &'t [u8]), AllocError>
    requires first { 0 < length first.now }
    requires second { 0 < length second.now }
    ensures text { IfOk result (λ rest. out.new.items ++ differences rest.0.now rest.1.now ≡ out.old.items ++ differences first.now second.now) }
    ensures shorter { IfOk result (λ rest. length rest.0.now + length rest.1.now < length first.now + length second.now) }
{
    let (x, xs) = first_line(first);
    let (y, ys) = first_line(second);
    match place(x).cmp(&place(y)) {
        Ordering::Less => {
            add_marked(out, b'<', x)?;
            Ok((xs, second))
        }
        Ordering::Equal => {
            add_unlike(out, x, y)?;
            Ok((xs, ys))
        }
        Ordering::Greater => {
            add_marked(out, b'>', y)?;
            Ok((first, ys))
        }
    }
}

// Adds two lines of one place, unless they are the same.
fn add_unlike(out: &mut Vec<u8>, first: &[u8], second: &[u8]) -> Result<(), AllocError>
    ensures { OnOk result (out.new.items ≡ out.old.items ++ unlike first.now second.now) }
{
    if first == second {
        return Ok(());
    }
    add_marked(out, b'<', first)?;
    add_marked(out, b'>', second)
}

// Adds all lines of a text.
fn add_all_marked(out: &mut Vec<u8>, mark: u8, text: &[u8]) -> Result<(), AllocError>
    ensures { OnOk result (out.new.items ≡ out.old.items ++ flat_map (marked mark) (lines_of text.now)) }
{
    let mut rest = text;
    while !rest.is_empty() {
        let (line, after) = first_line(rest);
        add_marked(out, mark, line)?;
        rest = after;
    }
    Ok(())
}

// Adds a line with a mark before it.
fn add_marked(out: &mut Vec<u8>, mark: u8, line: &[u8]) -> Result<(), AllocError>
    ensures { OnOk result (out.new.items ≡ out.old.items ++ marked mark line.now) }
{
    out.push(mark)?;
    out.push(b' ')?;
    out.extend_from_slice(line)
}

// The first line of a text with its end, and the text of the others.
#[tactic(auto, using(crate::proofs::Lines::cut))]
fn first_line(text: &[u8]) -> (&[u8], &[u8])
    requires { 0 < length text.now }
    ensures lines { lines_of text.now ≡ result.0.now ∷ lines_of result.1.now }
    ensures shorter { length result.1.now < length text.now }
{
    let end = until(text, b'\n');
    text.split_at(text.len().min(end + 1))
}
