// The lines that the programs write: fixed byte strings around decimal numbers.
#![tactic(auto)]

ghost use Rattle.std.specs.Prelude.{◌≡◌, ◌+◌, ◌≤◌, length, Ok, Err};
ghost use Rattle.std.proofs.lemmas.List.Edits.{sets};
ghost use Rattle.report.specs.Added.{Adds};
ghost use Rattle.report.specs.Lines.{line_of, told};

mod text;

use text::Line;
use typing::{Accepted, Verdict};

// The check program's line of a verdict, as verdict_line writes it.
pub fn check_line(verdict: Verdict, out: &mut [u8]) -> usize
    ensures { (result ≡ length (line_of (told verdict))) × (result ≤ 80)
        × (out.new ≡ sets out.old 0 (line_of (told verdict))) }
{
    verdict_line(
        verdict.map_err(|refusal| (u8::from(refusal.fault), refusal.place)),
        out,
    )
}

// The line at the start of a lent buffer; how long it is. Of a buffer that is too short the line's beginning is in it.
// A refusal is its number and its place; the number may be any.
pub fn verdict_line(v: Result<Accepted, (u8, usize)>, out: &mut [u8]) -> usize
    ensures { (result ≡ length (line_of v)) × (result ≤ 80) × (out.new ≡ sets out.old 0 (line_of v)) }
{
    let mut line = Line::new(out);
    match v {
        Ok(whole) => accepted(&mut line, whole),
        Err((number, place)) => refused(&mut line, number, place),
    }
    line.length()
}

fn accepted(line: &mut Line, whole: Accepted)
    requires { line.old.length ≤ 20 }
    ensures adds { Adds line.old (line_of (Ok whole)) line.new }
    ensures short { line.new.length ≤ line.old.length + 80 }
{
    line.text(b"accepted ");
    line.number(usize::from(whole.functions));
    line.text(b" functions ");
    line.number(whole.bytes);
    line.text(b" bytes\n");
}

fn refused(line: &mut Line, number: u8, place: usize)
    requires { line.old.length ≤ 20 }
    ensures adds { Adds line.old (line_of (Err (number, place))) line.new }
    ensures short { line.new.length ≤ line.old.length + 80 }
{
    line.text(b"refused ");
    line.number(usize::from(number));
    line.text(b" at ");
    line.number(place);
    line.text(b"\n");
}
